// One job.
ghost use Rattle.writer.specs.Jobs.{JobDone};
ghost use Rattle.writer.specs.Passes.{job_of};

use medium::{Fault, Medium};

// What a medium can be asked to do: the write of a word at a place, or the wipe of a block.
#[derive(Clone, Copy, PartialEq, Eq, Debug)]
pub enum Job {
    Word { place: u32, word: u16 },
    Wipe { block: u32 },
}

impl Job {
    // Has the medium do it.
    pub fn done_by<M: Medium>(self, medium: &mut M) -> Result<(), Fault>
        ensures { JobDone (M.meaning medium.old) (job_of self) result (M.meaning medium.new) }
    {
        match self {
            Job::Word { place, word } => medium.write_word(place, word),
            Job::Wipe { block } => medium.wipe(block),
        }
    }
}
