// One block of a pass.
ghost use Rattle.std.specs.Prelude.{◌≡◌, true, ◌+◌, ◌*◌, ◌/◌, ◌^◌, ◌<◌, ◌≤◌, length};
ghost use Rattle.medium.specs.Meaning.{capacity};
ghost use Rattle.writer.specs.Source.{bytes_of, end_of};
ghost use Rattle.writer.specs.Put.{wanted_block, of_one_block, block_counts, block_plan};
ghost use Rattle.writer.specs.Passes.{Room, TouchedPassed, BlankPassed, WipedPassed, BlockPassed, laid_block};

use crate::change::{Change, word_in};
use crate::counts::{Counts, NONE};
use crate::empty::EmptyMedium;
use crate::job::Job;
use crate::jobs::{Counting, Jobs, pass_changed};
use crate::laying::Laying;
use crate::source::Source;
use medium::{Fault, Medium};

// Writes each word of the block at `start` that changes: only one that is touched can differ.
fn pass_touched<M: Medium, J: Jobs<M>>(
    medium: &mut M,
    jobs: &mut J,
    start: u32,
    change: Change,
) -> Result<(), Fault>
    requires whole { 2 * (length change.block.now / 2) ≡ length change.block.now }
    requires reach { start + length change.block.now < 2 ^ 32 }
    requires room { Room (J.counted jobs.old) (length change.block.now) }
    ensures { TouchedPassed J.how start change.entry.block.now change.entry.laying.place (bytes_of change.entry.laying.source) (M.meaning medium.old) (J.counted jobs.old) result (J.counted jobs.new) (M.meaning medium.new) }
{
    let first = change.laying.place / 2;
    let end = change.laying.end().div_ceil(2);
    // By number: a word that is wanted lies partly in the block and partly in what is laid, so it is asked by its place.
    for k in first..end {
        let standing = word_in(change.block, 2 * k);
        let word = change.wanted_word(2 * k);
        pass_changed(medium, jobs, start + 2 * k as u32, standing, word)?;
    }
    Ok(())
}

// Writes each word of a wiped block at `start` that is wanted other than FFFFH.
fn pass_blank<M: Medium, J: Jobs<M>>(
    medium: &mut M,
    jobs: &mut J,
    start: u32,
    block: &[u8],
) -> Result<(), Fault>
    requires reach { start + length block.now < 2 ^ 32 }
    requires room { Room (J.counted jobs.old) (length block.now) }
    ensures { BlankPassed J.how start block.now (M.meaning medium.old) (J.counted jobs.old) result (J.counted jobs.new) (M.meaning medium.new) }
{
    for (k, pair) in block.chunks_exact(2).enumerate() {
        let word = word_in(pair, 0);
        pass_changed(medium, jobs, start + 2 * k as u32, u16::MAX, word)?;
    }
    Ok(())
}

// Wipes block `index` and writes what is wanted there.
fn pass_wiped<M: Medium, J: Jobs<M>>(
    medium: &mut M,
    jobs: &mut J,
    index: u32,
    block: &[u8],
) -> Result<(), Fault>
    requires reach { index * length block.now + length block.now < 2 ^ 32 }
    requires room { Room (J.counted jobs.old) (1 + length block.now) }
    ensures { WipedPassed J.how index block.now (M.meaning medium.old) (J.counted jobs.old) result (J.counted jobs.new) (M.meaning medium.new) }
{
    jobs.pass(medium, Job::Wipe { block: index })?;
    pass_blank(medium, jobs, index * block.len() as u32, block)
}

// Reads block `index`, brings the medium's block to what it holds with the piece laid over, and leaves that in `block`.
fn pass_piece<M: Medium, J: Jobs<M>>(
    medium: &mut M,
    jobs: &mut J,
    index: u32,
    piece: Laying,
    block: &mut [u8],
) -> Result<(), Fault>
    requires sized { length block.old ≡ (M.meaning medium.old).block_size }
    requires here { index < (M.meaning medium.old).blocks }
    requires within { end_of piece ≤ length block.old }
    requires room { Room (J.counted jobs.old) (1 + length block.old) }
    ensures { BlockPassed J.how index (laid_block (M.meaning medium.old) index piece.entry.place (bytes_of piece.entry.source)) (M.meaning medium.old) (J.counted jobs.old) result (J.counted jobs.new) (M.meaning medium.new) block.new }
{
    let start = index * block.len() as u32;
    // The block lies on the medium, so this is not refused.
    let _ = medium.read(start, block);
    let change = Change {
        block,
        laying: piece,
    };
    if change.must_wipe() {
        piece.lay_over(block);
        pass_wiped(medium, jobs, index, block)
    } else {
        let done = pass_touched(medium, jobs, start, change);
        piece.lay_over(block);
        done
    }
}

// Brings block `index` to what it holds with the bytes laid over the medium, and leaves that in `block`.
pub(crate) fn pass_block<M: Medium, J: Jobs<M>>(
    medium: &mut M,
    jobs: &mut J,
    index: usize,
    laying: Laying,
    block: &mut [u8],
) -> Result<(), Fault>
    requires sized { length block.old ≡ (M.meaning medium.old).block_size }
    requires within { end_of laying ≤ capacity (M.meaning medium.old) }
    requires here { index < (M.meaning medium.old).blocks }
    requires low { laying.place < index * length block.old + length block.old }
    requires high { index * length block.old < end_of laying }
    requires room { Room (J.counted jobs.old) (1 + length block.old) }
    ensures { BlockPassed J.how index (wanted_block (M.meaning medium.old) laying.entry.place (bytes_of laying.entry.source) index) (M.meaning medium.old) (J.counted jobs.old) result (J.counted jobs.new) (M.meaning medium.new) block.new }
{
    let piece = laying.piece(index * block.len(), block.len());
    pass_piece(medium, jobs, index as u32, piece, block)
}

// The counts of the jobs that bring a block from its present contents to those wanted.
fn count_jobs(present: &[u8], wanted: &[u8]) -> Counts
    requires { of_one_block present.now wanted.now ≡ true }
    ensures { result ≡ block_counts present.now wanted.now }
{
    let change = Change {
        block: present,
        laying: Laying {
            place: 0,
            source: Source::Bytes(wanted),
        },
    };
    let mut none = EmptyMedium {};
    let mut jobs = Counting { counts: NONE };
    // A pass that counts meets no fault.
    let _ = if change.must_wipe() {
        pass_wiped(&mut none, &mut jobs, 0, wanted)
    } else {
        pass_touched(&mut none, &mut jobs, 0, change)
    };
    jobs.counts
}

// The counts of the jobs that bring one block from its present contents to those wanted, as a put counts them. None
// where they are not of one length, of whole words and no more than the largest block has.
pub fn plan_block(present: &[u8], wanted: &[u8]) -> Option<Counts>
    ensures { result ≡ block_plan present.now wanted.now }
{
    let n = present.len();
    if wanted.len() != n || n % 2 != 0 || n > 131_072 {
        return None;
    }
    if present == wanted {
        return Some(NONE);
    }
    Some(count_jobs(present, wanted))
}
