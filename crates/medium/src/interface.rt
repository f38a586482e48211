// What the code above a medium may call, and what each call does.
ghost use Rattle.std.specs.Prelude.{◌≡◌};
ghost use Rattle.medium.specs.Meaning.{Meaning, Sound};
ghost use Rattle.medium.specs.Jobs.{ReadDone, WordDone, WipeDone};

use crate::fault::Fault;
use crate::size::Size;

// Blocks of bytes. To implement it is to show these contracts and the law; nothing else is asked of a card, a
// layer or a driver. Lock and supply move only by switches of the implementation's own, between calls.
pub trait Medium {
    // what the value stands for as a medium
    ghost meaning: { Self → Meaning };

    fn size(&self) -> Size
        ensures block_size { result.block_size ≡ (meaning self.now).block_size }
        ensures blocks { result.blocks ≡ (meaning self.now).blocks };

    // Fills the buffer from a place on. A driver cycles its slot for it, so it takes `&mut self`.
    fn read(&mut self, place: u32, buffer: &mut [u8]) -> Result<(), Fault>
        ensures { ReadDone (meaning self.old) place buffer.old result (meaning self.new) buffer.new };

    // Writes a word, the even byte low: a job, which can only turn ones into zeros.
    fn write_word(&mut self, place: u32, word: u16) -> Result<(), Fault>
        ensures { WordDone (meaning self.old) place word result (meaning self.new) };

    // Turns all bytes of a block to FFH: a job.
    fn wipe(&mut self, block: u32) -> Result<(), Fault>
        ensures { WipeDone (meaning self.old) block result (meaning self.new) };

    // sizes and lengths agree, and the limits hold
    ghost sound: { (m : Self) → Sound (meaning m) };
}
