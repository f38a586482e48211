// The four calls.
ghost use Rattle.medium.specs.Jobs.{ReadDone};
ghost use Rattle.writer.specs.Put.{PutDone, ClearDone, PlanDone, clear_place, clear_bytes};
ghost use Rattle.writer.specs.Laws.{Holds, Stops, Fewest, Accounted, AsPut};

use crate::counts::Counts;
use crate::fault::WriterFault;
use crate::jobs::{Counting, Doing};
use crate::laying::Laying;
use crate::range::pass_over;
use crate::source::Source;
use medium::{Fault, Medium};

// Lays the bytes over the medium at `place`, with as few wipes and words as that takes.
pub fn put<M: Medium>(
    medium: &mut M,
    place: u32,
    bytes: &[u8],
    buffer: &mut [u8],
) -> Result<Counts, WriterFault>
    ensures done { PutDone (M.meaning medium.old) place bytes.now buffer.old result (M.meaning medium.new) buffer.new }
    ensures holds { Holds (M.meaning medium.old) place bytes.now result (M.meaning medium.new) }
    ensures stops { Stops (M.meaning medium.old) place bytes.now result (M.meaning medium.new) }
    ensures fewest { Fewest (M.meaning medium.old) result (M.meaning medium.new) }
    ensures accounted { Accounted (M.meaning medium.old) result (M.meaning medium.new) }
{
    let laying = Laying {
        place: place as usize,
        source: Source::Bytes(bytes),
    };
    pass_over::<M, Doing>(medium, laying, buffer)
}

// Puts FFH over `count` blocks from `first` on.
pub fn clear<M: Medium>(
    medium: &mut M,
    first: u32,
    count: u32,
    buffer: &mut [u8],
) -> Result<Counts, WriterFault>
    ensures done { ClearDone (M.meaning medium.old) first count buffer.old result (M.meaning medium.new) buffer.new }
    ensures holds { Holds (M.meaning medium.old) (clear_place (M.meaning medium.old) first) (clear_bytes (M.meaning medium.old) count) result (M.meaning medium.new) }
    ensures stops { Stops (M.meaning medium.old) (clear_place (M.meaning medium.old) first) (clear_bytes (M.meaning medium.old) count) result (M.meaning medium.new) }
    ensures fewest { Fewest (M.meaning medium.old) result (M.meaning medium.new) }
    ensures accounted { Accounted (M.meaning medium.old) result (M.meaning medium.new) }
{
    let n = medium.size().block_size as usize;
    let laying = Laying {
        place: first as usize * n,
        source: Source::blank(count as usize * n),
    };
    pass_over::<M, Doing>(medium, laying, buffer)
}

// Reads the medium from `place` on.
pub fn take<M: Medium>(medium: &mut M, place: u32, buffer: &mut [u8]) -> Result<(), Fault>
    ensures { ReadDone (M.meaning medium.old) place buffer.old result (M.meaning medium.new) buffer.new }
{
    medium.read(place, buffer)
}

// The counts of a put that meets no fault, and the buffer that it would leave; the medium stays as it is.
pub fn plan<M: Medium>(
    medium: &mut M,
    place: u32,
    bytes: &[u8],
    buffer: &mut [u8],
) -> Result<Counts, WriterFault>
    ensures done { PlanDone (M.meaning medium.old) place bytes.now buffer.old result (M.meaning medium.new) buffer.new }
    ensures as_put { AsPut (M.meaning medium.old) place bytes.now result }
{
    let laying = Laying {
        place: place as usize,
        source: Source::Bytes(bytes),
    };
    pass_over::<M, Counting>(medium, laying, buffer)
}
