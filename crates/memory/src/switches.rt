// A new card, its bytes given back, and the calls that move its switches and lives.
ghost use Rattle.std.specs.Prelude.{◌≡◌, ℕ, ◌*◌};
ghost use Rattle.medium.specs.Jobs.{answers, lives_answer, no_block};
ghost use Rattle.memory.specs.Card.{card_meaning};
ghost use Rattle.memory.specs.Switches.{new_card, with_locks, with_supply, with_lives};

use crate::card::MemoryCard;
use medium::{BlockLives, CardLives, Fault, Geometry, Lanes};

impl MemoryCard {
    // A card over these bytes, unlocked, with good supply and no lives.
    pub fn new(geometry: Geometry, mut bytes: Vec<u8>) -> MemoryCard
        ensures { card_meaning result ≡ new_card geometry.block_size (geometry.blocks_per_pair * geometry.pairs) bytes.items }
    {
        let mut blocks = geometry.blocks();
        if bytes.len() != blocks as usize * geometry.block_size() as usize {
            blocks = 0;
            bytes.clear();
        }
        MemoryCard {
            geometry,
            blocks,
            bytes,
            lives: CardLives::none(),
            locked: false,
            supply_good: true,
        }
    }

    // Its contents.
    pub fn into_bytes(self) -> Vec<u8>
        ensures { result.items ≡ (card_meaning self).bytes }
    {
        self.bytes
    }

    // Locks or unlocks all blocks.
    pub fn set_locked(&mut self, locked: bool)
        ensures { card_meaning self.new ≡ with_locks (card_meaning self.old) locked }
    {
        self.locked = locked;
    }

    // Whether its blocks are locked.
    pub fn is_locked(&self) -> bool
        ensures { result ≡ self.now.locked }
    {
        self.locked
    }

    // Makes the supply good or low.
    pub fn set_supply(&mut self, good: bool)
        ensures { card_meaning self.new ≡ with_supply (card_meaning self.old) good }
    {
        self.supply_good = good;
    }

    // Whether the supply is good.
    pub fn has_supply(&self) -> bool
        ensures { result ≡ (card_meaning self.now).supply }
    {
        self.supply_good
    }

    // Gives lanes of a block so many lives. Three arguments: a struct of them would be made at each call and taken apart here.
    pub fn set_lives(&mut self, block: u32, lanes: Lanes, lives: u32) -> Result<(), Fault>
        ensures answer { result ≡ answers (no_block (card_meaning self.old) block) }
        ensures after { card_meaning self.new ≡ with_lives (card_meaning self.old) block lanes lives }
    {
        self.extent().find_block(block)?;
        self.lives.give(lanes, block as usize, lives);
        Ok(())
    }

    // The lives left on a block.
    pub fn lives(&self, block: u32) -> Result<BlockLives, Fault>
        ensures { result ≡ lives_answer (card_meaning self.now) block }
    {
        self.extent().find_block(block)?;
        Ok(self.lives.left(block as usize))
    }
}
