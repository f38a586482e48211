// What a driver may call, and what each call does.
ghost use Rattle.std.specs.Prelude.{◌≡◌, ℕ, ◌*◌, ◌≤◌, min, slice_index_or};
ghost use Rattle.devices.specs.Chip.{fresh, longest_wait};
ghost use Rattle.devices.specs.Table.{all_ready};
ghost use Rattle.slot.specs.State.{SlotState, SlotSound};
ghost use Rattle.slot.specs.Cycles.{WordRead, WordWritten, sampled, was_reset};

use medium::{Fault, Size};

// What size answers: bytes to a block, blocks to a device pair, and pairs, of which there may be none.
#[derive(Clone, Copy, PartialEq, Eq, Debug)]
pub struct SlotSize {
    pub block_size: u32,
    pub blocks_per_pair: u32,
    pub pairs: u32,
}

impl SlotSize {
    // The same as a medium's size. More blocks than a number holds, which no slot has, count as the most that it holds.
    pub fn as_medium(self) -> Size
        ensures block_size { result.block_size ≡ self.block_size }
        ensures blocks { result.blocks ≡ min (self.blocks_per_pair * self.pairs) u32.MAX }
    {
        Size {
            block_size: self.block_size,
            blocks: self.blocks_per_pair.saturating_mul(self.pairs),
        }
    }
}

// A card behind its bus. To implement it is to show these contracts and laws; nothing else is asked of a card. Pin
// and supply move only by switches of the implementation's own, between calls.
pub trait Slot {
    // The patience: how long a device of this kind of slot may wait at most, from 0 to 1,000.
    const PATIENCE: u32;

    // The same number for clauses. A `ghost PATIENCE` would tie it to the constant, but the check states no impl that
    // has one for a type with a lifetime, as a lent slot is.
    ghost patience: { ℕ };

    // what the value stands for as a slot
    ghost state: { Self → SlotState };

    // Answers `PATIENCE`; code under the bound calls this, since a proof knows what it answers.
    fn longest_wait() -> u32
        ensures { result ≡ patience };

    fn size(&self) -> SlotSize
        ensures block_size { result.block_size ≡ (state self.now).block_size }
        ensures blocks_per_pair { result.blocks_per_pair ≡ (state self.now).per_pair }
        ensures pairs { result.pairs ≡ (state self.now).pairs };

    // Reads the word at a place, the even device's byte low.
    fn read_word(&mut self, place: u32) -> Result<u16, Fault>
        ensures { WordRead (state self.old) place result (state self.new) };

    // Sends a word to the pair at a place: the low byte to the even device, the high byte to the odd one.
    fn write_word(&mut self, place: u32, word: u16) -> Result<(), Fault>
        ensures { WordWritten patience (state self.old) place word result (state self.new) };

    // Answers whether all devices are ready, and lowers each wait above 0 by one.
    fn sample(&mut self) -> bool
        ensures answer { result ≡ all_ready (state self.old).chips }
        ensures after { state self.new ≡ sampled (state self.old) };

    // Gives every device array mode, no error bits and no wait, and leaves the contents.
    fn reset(&mut self)
        ensures { state self.new ≡ was_reset (state self.old) };

    // Answers whether the protect pin is on.
    fn pin(&self) -> bool
        ensures { result ≡ (state self.now).pin };

    ghost small: { patience ≤ longest_wait };

    // sizes and lengths agree, and the limits hold
    ghost sound: { (s : Self) → SlotSound (state s) };

    // every wait is at most the patience
    ghost patient: { (s : Self) (k : ℕ) → (slice_index_or (state s).chips k fresh).wait ≤ patience };
}
