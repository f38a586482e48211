// A new board, its bytes given back, and the calls that set its lives and waits.
ghost use Rattle.std.specs.Prelude.{◌≡◌};
ghost use Rattle.medium.specs.Jobs.{answers, lives_answer, no_block};
ghost use Rattle.slot.specs.State.{as_medium, slot_blocks};
ghost use Rattle.board.specs.Held.{board_card, board_slot, with_slot};
ghost use Rattle.board.specs.Made.{new_card, with_lives, with_waits};

use crate::board::Board;
use crate::waits::Waits;
use devices::DeviceTable;
use medium::{BlockLives, CardLives, Fault, Geometry, Lanes, Size};
use slot::SlotSize;

impl Board {
    // A board over these bytes, with no lives, no waits, and devices as after reset.
    pub fn new(geometry: Geometry, mut bytes: Vec<u8>) -> Board
        ensures { board_card result ≡ new_card geometry.block_size geometry.blocks_per_pair geometry.pairs bytes.items }
    {
        let mut pairs = geometry.pairs();
        if bytes.len() != geometry.capacity() as usize {
            pairs = 0;
            bytes.clear();
        }
        Board {
            geometry,
            bytes,
            wear: CardLives::none(),
            table: DeviceTable::new(pairs),
            waits: Waits::new(0, 0),
        }
    }

    // Its contents.
    pub fn into_bytes(self) -> Vec<u8>
        ensures { result.items ≡ (board_slot self).bytes }
    {
        self.bytes
    }

    pub fn size(&self) -> SlotSize
        ensures block_size { result.block_size ≡ (board_slot self.now).block_size }
        ensures blocks_per_pair { result.blocks_per_pair ≡ (board_slot self.now).per_pair }
        ensures pairs { result.pairs ≡ (board_slot self.now).pairs }
    {
        SlotSize {
            block_size: self.geometry.block_size(),
            blocks_per_pair: self.geometry.blocks_per_pair(),
            pairs: self.table.pairs(),
        }
    }

    // Its size, as a medium's.
    pub(crate) fn extent(&self) -> Size
        ensures block_size { result.block_size ≡ (board_slot self.now).block_size }
        ensures blocks { result.blocks ≡ slot_blocks (board_slot self.now) }
    {
        self.size().as_medium()
    }

    // Gives lanes of a block so many lives. Three arguments: a struct of them would be made at each call and taken apart here.
    pub fn set_lives(&mut self, block: u32, lanes: Lanes, lives: u32) -> Result<(), Fault>
        ensures answer { result ≡ answers (no_block (as_medium (board_slot self.old)) block) }
        ensures after { board_card self.new ≡ with_slot (board_card self.old) (with_lives (board_slot self.old) block lanes lives) }
    {
        self.extent().find_block(block)?;
        self.wear.give(lanes, block as usize, lives);
        Ok(())
    }

    // The lives left on a block.
    pub fn lives(&self, block: u32) -> Result<BlockLives, Fault>
        ensures { result ≡ lives_answer (as_medium (board_slot self.now)) block }
    {
        self.extent().find_block(block)?;
        Ok(self.wear.left(block as usize))
    }

    // Sets how long devices are busy after the jobs to come.
    pub fn set_waits(&mut self, write: u32, wipe: u32)
        ensures { board_card self.new ≡ with_waits (board_card self.old) write wipe }
    {
        self.waits = Waits::new(write, wipe);
    }
}
