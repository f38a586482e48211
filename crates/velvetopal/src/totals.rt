// Totals over a list of calls.
ghost use Rattle.std.specs.Prelude.{◌≡◌, ℕ, ◌+◌};
ghost use Rattle.writer.specs.Laws.{lanes_told, named};
ghost use Rattle.velvetopal.specs.Totals.{wipes_told, words_told, of_answer, summed, capped};

use histories::{Answer, Call};
use medium::Lanes;
use writer::WriterFault;

// Wipes and words begun, and worn lanes named in faults. A total stops at the largest number of 64 bits.
#[derive(Clone, Copy, Default)]
pub(crate) struct Totals {
    pub(crate) wipes: u64,
    pub(crate) words: u64,
    pub(crate) lanes: u64,
}

// How many lanes a fault names as worn.
fn lanes_named(failed: WriterFault) -> u64
    ensures { result ≡ named failed.fault }
{
    match failed.fault.lanes() {
        Some(Lanes::Both) => 2,
        Some(_) => 1,
        None => 0,
    }
}

impl Totals {
    // Adds what an answer counts.
    fn add(&mut self, answer: Answer)
        ensures wipes { self.new.wipes ≡ capped (self.old.wipes + of_answer wipes_told answer) }
        ensures words { self.new.words ≡ capped (self.old.words + of_answer words_told answer) }
        ensures lanes { self.new.lanes ≡ capped (self.old.lanes + of_answer lanes_told answer) }
    {
        let (wipes, words, lanes) = match answer {
            Answer::Written(Ok(counts)) => (counts.wipes, counts.words, 0),
            Answer::Written(Err(failed)) => (failed.wipes, failed.words, lanes_named(failed)),
            _ => (0, 0, 0),
        };
        self.wipes = self.wipes.saturating_add(wipes as u64);
        self.words = self.words.saturating_add(words as u64);
        self.lanes = self.lanes.saturating_add(lanes);
    }
}

// The totals of all calls of a list.
pub(crate) fn total_of(calls: &[Call]) -> Totals
    ensures wipes { result.wipes ≡ capped (summed wipes_told calls.now) }
    ensures words { result.words ≡ capped (summed words_told calls.now) }
    ensures lanes { result.lanes ≡ capped (summed lanes_told calls.now) }
{
    let mut sum = Totals::default();
    for call in calls {
        sum.add(call.answer);
    }
    sum
}
