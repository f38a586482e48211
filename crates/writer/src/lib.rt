// The block writer: put, clear, take and plan, one text for every medium.
//
// A put lays bytes over a medium. It reads each block that the range meets once, and wipes a block only where some
// bit must rise from 0 to 1, since a word write can only turn ones into zeros. Where it wiped, it writes each word
// that is wanted other than FFFFH; elsewhere each word that differs. It stops at the first job that a medium
// refuses or that meets a worn lane. Clear is a put of FFH over whole blocks, take is the medium's read, and
// plan answers what a put would take without doing it.
//
// specs/Put says on every input what a call answers, and what it leaves on the medium and in the buffer; specs/Laws
// what follows from it, in the words of someone who uses the calls.
#![tactic(auto)]

mod block;
mod calls;
mod change;
mod counts;
mod empty;
mod fault;
mod job;
mod jobs;
mod laying;
mod range;
mod source;

pub use block::plan_block;
pub use calls::{clear, plan, put, take};
pub use counts::Counts;
pub use fault::WriterFault;
pub use job::Job;
