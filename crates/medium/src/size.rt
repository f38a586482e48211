// The size of a medium, and the tests of places that go by it.
ghost use Rattle.std.specs.Prelude.{◌≡◌, ◌*◌};
ghost use Rattle.medium.specs.Jobs.{answers, gives, no_range, no_word, off_block};

use crate::fault::Fault;

// Bytes to a block, and blocks.
#[derive(Clone, Copy, PartialEq, Eq, Debug)]
pub struct Size {
    pub block_size: u32,
    pub blocks: u32,
}

impl Size {
    // Bytes of all blocks.
    pub fn capacity(self) -> u64
        ensures { result ≡ self.blocks * self.block_size }
    {
        self.blocks as u64 * self.block_size as u64
    }

    // The first place of a block, if there is such a block.
    pub fn find_block(self, block: u32) -> Result<u64, Fault>
        ensures { result ≡ gives (off_block self.blocks self.block_size block) (block * self.block_size) }
    {
        let place = block as u64 * self.block_size as u64;
        if block >= self.blocks {
            return Err(Fault::OffCard { place });
        }
        Ok(place)
    }

    // Whether so many bytes from a place on are there.
    pub fn test_range(self, place: u64, count: u64) -> Result<(), Fault>
        ensures { result ≡ answers (no_range (self.blocks * self.block_size) place count) }
    {
        let capacity = self.capacity();
        if count > capacity || place > capacity - count {
            return Err(Fault::OffCard { place });
        }
        Ok(())
    }
}

// Whether there is a word at a place where there are so many bytes.
pub fn test_word(capacity: u64, place: u32) -> Result<(), Fault>
    ensures { result ≡ answers (no_word capacity place) }
{
    let place = place as u64;
    if place + 2 > capacity {
        return Err(Fault::OffCard { place });
    }
    if place % 2 != 0 {
        return Err(Fault::OddPlace { place });
    }
    Ok(())
}
