// The marks of a fence.
ghost use Rattle.std.specs.Prelude.{◌≡◌, ℕ, false, length, replicate, slice_index_or, slice_set};
ghost use Rattle.medium.specs.Limits.{most_blocks};

use medium::MOST_BLOCKS;

// A mark for each block that a medium can have.
#[derive(Clone, Copy)]
pub struct Marks {
    // An array and no `Vec` or set: to make a fence neither allocates nor fails.
    marked: [bool; MOST_BLOCKS],
    ghost long: { length marked ≡ most_blocks },
}

impl Marks {
    // No block is marked.
    pub fn none() -> Marks
        ensures { result.marked ≡ replicate most_blocks false }
    {
        Marks {
            marked: [false; MOST_BLOCKS],
        }
    }

    // Whether a block is marked; none past the last that a medium can have.
    pub fn has(&self, block: u32) -> bool
        ensures { result ≡ slice_index_or self.now.marked block false }
    {
        self.marked.get(block as usize).copied().unwrap_or(false)
    }

    // Marks a block, or clears its mark.
    pub(crate) fn put(&mut self, block: u32, on: bool)
        ensures { self.new.marked ≡ slice_set self.old.marked block on }
    {
        let block = block as usize;
        // No `get_mut`: of an array that was written through it a proof knows the length alone.
        if block < MOST_BLOCKS {
            self.marked[block] = on;
        }
    }
}
