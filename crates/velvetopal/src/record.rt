// The record of a run, line by line.
use crate::totals::{Totals, total_of};
use histories::{Answer, Call, Request};
use medium::Medium;
use memory::MemoryCard;
use std::fmt;
use writer::Counts;

// Bytes, as two hexadecimal digits each.
#[derive(Clone, Copy)]
struct Digits<'a>(&'a [u8]);

impl fmt::Display for Digits<'_> {
    fn fmt<W: fmt::Write>(&self, f: &mut fmt::Formatter<W>) -> fmt::Result {
        for byte in self.0 {
            write!(f, " {byte:02x}")?;
        }
        Ok(())
    }
}

// What a call asked.
#[derive(Clone, Copy)]
struct Asked<'a>(&'a Call);

impl fmt::Display for Asked<'_> {
    fn fmt<W: fmt::Write>(&self, f: &mut fmt::Formatter<W>) -> fmt::Result {
        match &self.0.request {
            Request::Put { place, bytes } => {
                let count = bytes.len();
                write!(f, "put {count} bytes at {place}:")
            }
            Request::Clear { first, count } => write!(f, "clear {count} blocks from {first}:"),
            Request::Take { place } => {
                let count = self.0.buffer.len();
                write!(f, "take {count} bytes from {place}:")
            }
            Request::Plan { place, bytes } => {
                let count = bytes.len();
                write!(f, "plan {count} bytes at {place}:")
            }
        }
    }
}

// What it answered.
#[derive(Clone, Copy)]
struct Answered<'a>(&'a Call);

impl fmt::Display for Answered<'_> {
    fn fmt<W: fmt::Write>(&self, f: &mut fmt::Formatter<W>) -> fmt::Result {
        match self.0.answer {
            Answer::Written(Ok(Counts { wipes, words })) => {
                write!(f, " done with {wipes} wipes, {words} words")
            }
            Answer::Planned(Ok(Counts { wipes, words })) => {
                write!(f, " a put takes {wipes} wipes, {words} words")
            }
            Answer::Written(Err(failed)) => write!(f, " {failed}"),
            Answer::Planned(Err(failed)) => write!(f, " {failed}"),
            Answer::Taken(Ok(())) => write!(f, "{}", Digits(&self.0.buffer)),
            Answer::Taken(Err(fault)) => write!(f, " {fault}"),
            Answer::NoSuchMedium => write!(f, " no such medium"),
            Answer::Waiting => write!(f, " not carried out"),
        }
    }
}

// A call and its answer, as one line.
#[derive(Clone, Copy)]
pub(crate) struct Told<'a>(pub(crate) &'a Call);

impl fmt::Display for Told<'_> {
    fn fmt<W: fmt::Write>(&self, f: &mut fmt::Formatter<W>) -> fmt::Result {
        write!(f, "{}{}", Asked(self.0), Answered(self.0))
    }
}

// The calls of a list, in order.
pub(crate) fn show_calls(rt: &HostRuntime, calls: &[Call]) -> anyhow::Result<()> {
    for call in calls {
        println!(rt; "{}", Told(call))?;
    }
    Ok(())
}

// The lives left on all lanes of a card.
pub(crate) fn lives_left(card: &MemoryCard) -> u64 {
    (0..card.size().blocks)
        .filter_map(|block| card.lives(block).ok())
        .fold(0, |sum: u64, lives| {
            sum.saturating_add(lives.even as u64)
                .saturating_add(lives.odd as u64)
        })
}

// The totals of a list of calls, beside the lives that the card lost over it.
pub(crate) fn show_totals(rt: &HostRuntime, calls: &[Call], lost: u64) -> anyhow::Result<()> {
    let Totals {
        wipes,
        words,
        lanes,
    } = total_of(calls);
    println!(rt;
        "totals: {wipes} wipes and {words} words begun, {lost} lives lost, {lanes} lanes named"
    )?;
    let accounted = lost.saturating_add(lanes);
    let jobs = wipes.saturating_add(words);
    println!(rt; "account: {lost} + {lanes} = {accounted}, twice {jobs} jobs")?;
    Ok(())
}
