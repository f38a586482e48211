// What a call was answered.
use medium::Fault;
use writer::{Counts, WriterFault};

#[derive(Clone, Copy, PartialEq, Eq, Debug)]
pub enum Answer {
    // not carried out yet: a case and no `Option` around the others, so that records name it like any other
    Waiting,
    // by a put or clear: the jobs begun, or why it stopped
    Written(Result<Counts, WriterFault>),
    // by a take
    Taken(Result<(), Fault>),
    // by a plan: the jobs that a put would begin; a case apart from `Written`, so that nobody takes a plan for a put
    Planned(Result<Counts, WriterFault>),
    // the call names no medium of the list
    NoSuchMedium,
}
