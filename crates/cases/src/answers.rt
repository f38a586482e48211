// Answers of the writer, as the tests expect them.
use medium::Fault;
use writer::{Counts, WriterFault};

pub(crate) fn counts(wipes: u32, words: u32) -> Result<Counts, WriterFault> {
    Ok(Counts { wipes, words })
}

pub(crate) fn failed(fault: Fault, wipes: u32, words: u32) -> Result<Counts, WriterFault> {
    Err(WriterFault {
        fault,
        wipes,
        words,
    })
}
