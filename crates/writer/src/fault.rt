// Why a call of the writer did not finish.
ghost use Rattle.std.specs.Prelude.{◌≡◌};
ghost use Rattle.writer.specs.Jobs.{tally};
ghost use Rattle.writer.specs.Put.{failed};

use crate::counts::{Counts, NONE};
use medium::Fault;
use thiserror::Error;

// The counts stand flat and not as a `Counts`, since callers name and print all three alike.
// The medium's fault whole, and beside it the wipes and words that were begun, the worn job included. As a person reads
// it: "fault 6: worn, odd lane, place 131072; begun: 1 wipes, 3 words".
#[derive(Clone, Copy, PartialEq, Eq, Debug, Error)]
#[error("{fault}; begun: {wipes} wipes, {words} words")]
pub struct WriterFault {
    pub fault: Fault,
    pub wipes: u32,
    pub words: u32,
}

impl WriterFault {
    // A medium's fault, and the jobs begun.
    pub(crate) fn new(fault: Fault, begun: Counts) -> WriterFault
        ensures { result ≡ failed fault begun }
    {
        WriterFault {
            fault,
            wipes: begun.wipes,
            words: begun.words,
        }
    }
}

// A medium's fault, with nothing begun. By hand, so that a clause can name what `?` makes of it.
impl From<Fault> for WriterFault {
    ghost from_gives = { λ f w. w ≡ failed f (tally 0 0) };

    fn from(fault: Fault) -> WriterFault {
        WriterFault::new(fault, NONE)
    }
}
