// Jobs counted.
ghost use Rattle.std.specs.Prelude.{◌≡◌};
ghost use Rattle.writer.specs.Jobs.{counted};
ghost use Rattle.writer.specs.Passes.{Room, job_of};

use crate::job::Job;

// Wipes and word writes that were begun; of a plan, those that a put would begin.
#[derive(Clone, Copy, PartialEq, Eq, Debug)]
pub struct Counts {
    pub wipes: u32,
    pub words: u32,
}

// Those of a call that has begun no job.
pub(crate) const NONE: Counts = Counts { wipes: 0, words: 0 };

impl Counts {
    // Counts a job more.
    pub(crate) fn add(&mut self, job: Job)
        requires { Room self.old 1 }
        ensures { self.new ≡ counted (job_of job) self.old }
    {
        match job {
            Job::Word { .. } => self.words += 1,
            Job::Wipe { .. } => self.wipes += 1,
        }
    }
}
