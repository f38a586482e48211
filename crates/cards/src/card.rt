// A card, and the calls that set its lives and waits.
ghost use Rattle.std.specs.Prelude.{◌≡◌};
ghost use Rattle.medium.specs.Jobs.{answers, lives_answer, no_block};
ghost use Rattle.slot.specs.State.{as_medium};
ghost use Rattle.board.specs.Held.{with_slot};
ghost use Rattle.board.specs.Made.{with_lives, with_waits};
ghost use Rattle.cards.specs.Meant.{of_card};

use crate::wiring::Wiring;
use board::Board;
use medium::{BlockLives, Fault, Lanes};

// A board with its wiring.
#[derive(Drop)]
pub struct Card<W> {
    pub(crate) board: Board,
    pub(crate) wiring: W,
}

impl<W: Wiring + Drop> Card<W> {
    // Its contents.
    pub fn into_bytes(self) -> Vec<u8>
        ensures { result.items ≡ (of_card W.switches self).slot.bytes }
    {
        let Card { board, wiring: _ } = self;
        board.into_bytes()
    }

    // Whether the supply is good.
    pub fn has_supply(&self) -> bool
        ensures { result ≡ (of_card W.switches self.now).slot.supply }
    {
        self.wiring.is_supply_good()
    }

    // Gives lanes of a block so many lives. Three arguments: a struct of them would be made at each call and taken apart here.
    pub fn set_lives(&mut self, block: u32, lanes: Lanes, lives: u32) -> Result<(), Fault>
        ensures answer { result ≡ answers (no_block (as_medium (of_card W.switches self.old).slot) block) }
        ensures after { of_card W.switches self.new ≡ with_slot (of_card W.switches self.old) (with_lives (of_card W.switches self.old).slot block lanes lives) }
    {
        self.board.set_lives(block, lanes, lives)
    }

    // The lives left on a block.
    pub fn lives(&self, block: u32) -> Result<BlockLives, Fault>
        ensures { result ≡ lives_answer (as_medium (of_card W.switches self.now).slot) block }
    {
        self.board.lives(block)
    }

    // Sets how long devices are busy after a write and after a wipe, for the jobs to come.
    pub fn set_waits(&mut self, write: u32, wipe: u32)
        ensures { of_card W.switches self.new ≡ with_waits (of_card W.switches self.old) write wipe }
    {
        self.board.set_waits(write, wipe);
    }
}
