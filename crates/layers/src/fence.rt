// A fence: locks of its own over the medium below.
ghost use Rattle.std.specs.Prelude.{◌≡◌, ◌*◌, false, None, replicate};
ghost use Rattle.medium.specs.Limits.{most_blocks};
ghost use Rattle.medium.specs.Jobs.{answers, refuse_if, ReadDone, WordDone, WipeDone};
ghost use Rattle.medium.specs.declared.fault.Fault.TheVariants.{Locked};
ghost use Rattle.layers.specs.Fence.{of_fence, stops_word, stops_wipe, MarkDone, FenceWord, FenceWipe};
ghost use Rattle.layers.specs.Fenced.{fence_sound};

use crate::marks::Marks;
use crate::switch::{Layer, Switch};
use medium::{Fault, Medium, Size, test_word};

// The medium below with a mark for each block: a block is locked if it is marked or locked below.
#[derive(Drop)]
pub struct Fence<M> {
    below: M,
    marks: Marks,
}

impl<M: Medium> Fence<M> {
    // A fence with no block marked.
    pub fn new(below: M) -> Fence<M>
        ensures below { result.below ≡ below }
        ensures marks { result.marks.marked ≡ replicate most_blocks false }
    {
        Fence::with_marks(below, Marks::none())
    }

    // A fence with these marks.
    pub fn with_marks(below: M, marks: Marks) -> Fence<M>
        ensures below { result.below ≡ below }
        ensures marks { result.marks ≡ marks }
    {
        Fence { below, marks }
    }

    // Its marks.
    pub fn marks(&self) -> Marks
        ensures { result ≡ self.now.marks }
    {
        self.marks
    }

    // Gives the medium below back. A method and no call of `Layer`: a pile is taken apart with no trait in scope.
    pub fn into_below(self) -> M
        ensures { result ≡ self.below }
    {
        let Fence { below, marks: _ } = self;
        below
    }

    // Marks a block, or clears its mark.
    pub fn mark(&mut self, block: u32, on: bool) -> Result<(), Fault>
        ensures { MarkDone M.meaning self.old block on result self.new }
    {
        self.below.size().find_block(block)?;
        self.marks.put(block, on);
        Ok(())
    }

    // Refuses a word that a mark locks. One that is off the card or at an odd place is refused for that, below.
    fn test_word_mark(&self, place: u32) -> Result<(), Fault>
        ensures { result ≡ answers (refuse_if (stops_word (M.meaning self.now.below) self.now.marks.marked place) (Locked place) None) }
    {
        let size = self.below.size();
        if test_word(size.capacity(), place).is_ok() && self.marks.has(place / size.block_size) {
            return Err(Fault::Locked {
                place: place as u64,
            });
        }
        Ok(())
    }

    // Refuses the wipe of a block that is marked. One that is off the card is refused for that, below.
    fn test_wipe_mark(&self, block: u32) -> Result<(), Fault>
        ensures { result ≡ answers (refuse_if (stops_wipe (M.meaning self.now.below) self.now.marks.marked block) (Locked (block * (M.meaning self.now.below).block_size)) None) }
    {
        match self.below.size().find_block(block) {
            Ok(place) if self.marks.has(block) => Err(Fault::Locked { place }),
            _ => Ok(()),
        }
    }
}

impl<M: Medium> Medium for Fence<M> {
    ghost meaning = { λ f. of_fence M.meaning f };

    ghost sound = { λ f. fence_sound (M.meaning f.below) f.marks.marked (M.sound f.below) };

    fn size(&self) -> Size {
        self.below.size()
    }

    // The marks stay through all three calls, and each says so itself: a clause speaks of its own call alone.
    fn read(&mut self, place: u32, buffer: &mut [u8]) -> Result<(), Fault>
        ensures medium { ReadDone (of_fence M.meaning self.old) place buffer.old result (of_fence M.meaning self.new) buffer.new }
        ensures below { M.meaning self.new.below ≡ M.meaning self.old.below }
        ensures marks { self.new.marks ≡ self.old.marks }
    {
        self.below.read(place, buffer)
    }

    fn write_word(&mut self, place: u32, word: u16) -> Result<(), Fault>
        ensures medium { WordDone (of_fence M.meaning self.old) place word result (of_fence M.meaning self.new) }
        ensures below { FenceWord M.meaning self.old place word self.new }
        ensures marks { self.new.marks ≡ self.old.marks }
    {
        self.test_word_mark(place)?;
        self.below.write_word(place, word)
    }

    fn wipe(&mut self, block: u32) -> Result<(), Fault>
        ensures medium { WipeDone (of_fence M.meaning self.old) block result (of_fence M.meaning self.new) }
        ensures below { FenceWipe M.meaning self.old block self.new }
        ensures marks { self.new.marks ≡ self.old.marks }
    {
        self.test_wipe_mark(block)?;
        self.below.wipe(block)
    }
}

impl<M: Medium> Layer for Fence<M> {
    type Below = M;

    ghost below = { λ l. l.below };

    ghost stays = { λ l l'. l'.marks ≡ l.marks };

    fn turn_below<S: Switch<M>>(&mut self, switch: &mut S) {
        switch.turn(&mut self.below);
    }
}
