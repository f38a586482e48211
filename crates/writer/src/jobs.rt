// The jobs of a pass: done and counted, or only counted.
ghost use Rattle.std.specs.Prelude.{◌≡◌, [], ◌∷◌};
ghost use Rattle.writer.specs.Jobs.{tally, was_begun};
ghost use Rattle.writer.specs.Blocks.{word_if};
ghost use Rattle.writer.specs.Passes.{Pass, Passed, Room, doing, counting, job_of};
ghost use Rattle.writer.specs.declared.counts.Counts.{Counts};

use crate::counts::{Counts, NONE};
use crate::job::Job;
use medium::{Fault, Medium};

// What a pass does with the jobs that it comes to. The medium is lent to each call and not held beside the counts: of a
// struct that holds a `&mut`, generic code could not say that it still holds the same one.
pub(crate) trait Jobs<M: Medium>: Drop {
    // whether it does them
    ghost how: { Pass };

    // how many it has counted
    ghost counted: { Self → Counts };

    // None yet.
    fn begin() -> Self
        ensures { counted result ≡ tally 0 0 };

    fn counts(&self) -> Counts
        ensures { result ≡ counted self.now };

    // One job of the pass.
    fn pass(&mut self, medium: &mut M, job: Job) -> Result<(), Fault>
        requires { Room (counted self.old) 1 }
        ensures { Passed how (job_of job ∷ []) (M.meaning medium.old) (counted self.old) result (counted self.new) (M.meaning medium.new) };
}

// Two structs of one field, with `begin` and `counts` in each impl: a struct that both share would only be unpacked again.
// A put has the medium do each job, and counts those that are begun.
#[derive(Drop)]
pub(crate) struct Doing {
    counts: Counts,
}

// A plan counts each job, and leaves the medium alone.
#[derive(Drop)]
pub(crate) struct Counting {
    pub(crate) counts: Counts,
}

// Whether the job with this answer was begun: one that met a worn lane was, a refused one was not.
fn begun(done: &Result<(), Fault>) -> bool
    ensures { result ≡ was_begun done.now }
{
    matches!(done, Ok(()) | Err(Fault::Worn { .. }))
}

impl<M: Medium> Jobs<M> for Doing {
    ghost how = { doing };

    ghost counted = { λ d. d.counts };

    fn begin() -> Doing {
        Doing { counts: NONE }
    }

    fn counts(&self) -> Counts {
        self.counts
    }

    fn pass(&mut self, medium: &mut M, job: Job) -> Result<(), Fault> {
        let done = job.done_by(medium);
        if begun(&done) {
            self.counts.add(job);
        }
        done
    }
}

impl<M: Medium> Jobs<M> for Counting {
    ghost how = { counting };

    ghost counted = { λ c. c.counts };

    fn begin() -> Counting {
        Counting { counts: NONE }
    }

    fn counts(&self) -> Counts {
        self.counts
    }

    fn pass(&mut self, _medium: &mut M, job: Job) -> Result<(), Fault> {
        self.counts.add(job);
        Ok(())
    }
}

// The write of a word, if another stands at its place.
pub(crate) fn pass_changed<M: Medium, J: Jobs<M>>(
    medium: &mut M,
    jobs: &mut J,
    place: u32,
    standing: u16,
    word: u16,
) -> Result<(), Fault>
    requires { Room (J.counted jobs.old) 1 }
    ensures { Passed J.how (word_if place standing word) (M.meaning medium.old) (J.counted jobs.old) result (J.counted jobs.new) (M.meaning medium.new) }
{
    if standing == word {
        return Ok(());
    }
    jobs.pass(medium, Job::Word { place, word })
}
