// Records, line by line.
use crate::record::{Record, ShownBytes};
use crate::trouble::Trouble;
use crate::writing::UNTOUCHED;
use notation::print_hex;
use piles::BlockState;
use std::io;
use std::io::Write;

// How many bytes that are all the same are written at a time.
const CHUNK: usize = 2048;

// Writes so many bytes that are all as before the call.
fn print_untouched<W: Write>(out: &mut W, count: usize) -> io::Result<()> {
    let bytes = [UNTOUCHED; CHUNK];
    for _ in 0..count / CHUNK {
        print_hex(out, &bytes)?;
    }
    print_hex(out, &bytes[0..count % CHUNK])
}

fn print_bytes<W: Write>(out: &mut W, shown: &ShownBytes) -> io::Result<()> {
    if shown.bytes.is_empty() && shown.untouched == 0 {
        return out.write_all(b"-");
    }
    print_hex(out, &shown.bytes)?;
    print_untouched(out, shown.untouched as usize)
}

fn print_blocks<W: Write>(out: &mut W, blocks: &[BlockState]) -> io::Result<()> {
    for (i, block) in blocks.iter().enumerate() {
        write!(out, "\n block {i} {block}")?;
    }
    Ok(())
}

fn print_record<W: Write>(out: &mut W, record: &Record) -> io::Result<()> {
    write!(out, "{record}")?;
    match record {
        Record::Bytes(shown) => print_bytes(out, shown),
        Record::Medium(medium) => print_blocks(out, &medium.blocks),
        _ => Ok(()),
    }
}

// Writes what the command of a line answered.
pub(crate) fn print_answer<W: Write>(
    out: &mut W,
    line: usize,
    answer: &Result<Record, Trouble>,
) -> io::Result<()> {
    write!(out, "{line}: ")?;
    match answer {
        Ok(record) => print_record(out, record)?,
        Err(trouble) => write!(out, "{trouble}")?,
    }
    out.write_all(b"\n")
}
