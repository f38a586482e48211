// Why a command did not do what it asks.
use crate::texts::FaultText;
use medium::Fault;
use notation::Why;
use std::alloc::{AllocError, AllocFailed};
use thiserror::Error;
use writer::WriterFault;

// A fault of the product, one with the jobs that were begun, or an error of the script; as a record tells it.
#[derive(Clone, Copy, Debug, Error)]
pub(crate) enum Trouble {
    #[error("{}", FaultText(*.0))]
    Fault(#[from] Fault),
    #[error("{} wipes={} words={}", FaultText(.0.fault), .0.wipes, .0.words)]
    WriterFault(#[from] WriterFault),
    #[error("error {0}")]
    Error(#[from] Why),
}

// A failed allocation is an error of the line. These two are written by hand, since it is another error's case.

impl From<AllocError> for Trouble {
    fn from(e: AllocError) -> Trouble {
        Trouble::Error(Why::from(e))
    }
}

impl<T: Drop> From<AllocFailed<T>> for Trouble {
    fn from(e: AllocFailed<T>) -> Trouble {
        Trouble::Error(Why::from(e))
    }
}
