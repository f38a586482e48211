// A pass over the blocks that a range meets.
ghost use Rattle.std.specs.Prelude.{◌≡◌, ◌+◌, ◌^◌, ◌<◌, ◌≤◌, length};
ghost use Rattle.medium.specs.Meaning.{capacity};
ghost use Rattle.medium.specs.Jobs.{answers};
ghost use Rattle.writer.specs.Source.{bytes_of, end_of};
ghost use Rattle.writer.specs.Put.{put_refusal};
ghost use Rattle.writer.specs.Passes.{Room, BlocksPassed, RangePassed, PassDone};

use crate::block::pass_block;
use crate::counts::Counts;
use crate::fault::WriterFault;
use crate::jobs::Jobs;
use crate::laying::Laying;
use medium::{Fault, Medium};

// Brings each block that the range meets to what it holds with the bytes laid over, rising.
fn pass_blocks<M: Medium, J: Jobs<M>>(
    medium: &mut M,
    jobs: &mut J,
    laying: Laying,
    block: &mut [u8],
) -> Result<(), Fault>
    requires sized { length block.old ≡ (M.meaning medium.old).block_size }
    requires within { end_of laying ≤ capacity (M.meaning medium.old) }
    requires some { 0 < length (bytes_of laying.source) }
    requires room { Room (J.counted jobs.old) (2 ^ 31) }
    ensures { BlocksPassed J.how laying.entry.place (bytes_of laying.entry.source) (M.meaning medium.old) (J.counted jobs.old) result (J.counted jobs.new) (M.meaning medium.new) block.new }
{
    let n = block.len();
    let first = laying.place / n;
    let end = (laying.end() - 1) / n + 1;
    for index in first..end {
        pass_block(medium, jobs, index, laying, block)?;
    }
    Ok(())
}

// The pass for bytes that fit the medium, with a buffer that holds a block.
fn pass_range<M: Medium, J: Jobs<M>>(
    medium: &mut M,
    jobs: &mut J,
    laying: Laying,
    buffer: &mut [u8],
) -> Result<(), Fault>
    requires within { end_of laying ≤ capacity (M.meaning medium.old) }
    requires holds { (M.meaning medium.old).block_size ≤ length buffer.old }
    requires room { Room (J.counted jobs.old) (2 ^ 31) }
    ensures { RangePassed J.how laying.entry.place (bytes_of laying.entry.source) buffer.old (M.meaning medium.old) (J.counted jobs.old) result (J.counted jobs.new) (M.meaning medium.new) buffer.new }
{
    if laying.source.len() == 0 {
        return Ok(());
    }
    let n = medium.size().block_size as usize;
    pass_blocks(medium, jobs, laying, &mut buffer[..n])
}

// The tests of a put with a buffer of `room` bytes: of the range first, then of the buffer.
fn test_call<M: Medium>(medium: &M, laying: Laying, room: usize) -> Result<(), Fault>
    ensures { result ≡ answers (put_refusal (M.meaning medium.now) laying.entry.place (length (bytes_of laying.entry.source)) room) }
{
    let size = medium.size();
    let place = laying.place as u64;
    size.test_range(place, laying.source.len() as u64)?;
    if room < size.block_size as usize {
        return Err(Fault::ShortBuffer { place });
    }
    Ok(())
}

// The tests, and then the pass.
pub(crate) fn pass_over<M: Medium, J: Jobs<M>>(
    medium: &mut M,
    laying: Laying,
    buffer: &mut [u8],
) -> Result<Counts, WriterFault>
    ensures { PassDone J.how (M.meaning medium.old) laying.entry.place (bytes_of laying.entry.source) buffer.old result (M.meaning medium.new) buffer.new }
{
    test_call(medium, laying, buffer.len())?;
    let mut jobs = J::begin();
    let done = pass_range(medium, &mut jobs, laying, buffer);
    let counts = jobs.counts();
    done.map(|()| counts)
        .map_err(|fault| WriterFault::new(fault, counts))
}
