// The writer's calls, over any medium.
ghost use Rattle.std.specs.Prelude.{◌≡◌, ◌+◌, IfOk, vec_len};
ghost use Rattle.script.specs.Calls.{WriteDone};

use crate::command::WriterCall;
use crate::record::ShownBytes;
use crate::trouble::Trouble;
use medium::Medium;
use std::alloc::{AllocError, Global};
use writer::{Counts, WriterFault, clear, plan, put, take};

// What every byte of a block buffer is before a call.
pub(crate) const UNTOUCHED: u8 = 0xaa;

// How many bytes past a block are really made of a longer buffer.
const SPARE: u32 = 4096;

// A block buffer. The writer leaves everything past the first block of it untouched, so of a longer one only a part is
// made, and the rest is known to be as it was.
#[derive(Drop)]
pub(crate) struct BlockBuffer {
    bytes: Vec<u8>,
    rest: u32,
}

impl BlockBuffer {
    // A buffer of so many bytes, for blocks of a size.
    pub(crate) fn new(heap: Global, room: u32, block_size: u32) -> Result<BlockBuffer, AllocError>
        ensures { IfOk result (λ b. vec_len b.bytes + b.rest ≡ room) }
    {
        let made = room.min(block_size.saturating_add(SPARE));
        let bytes = vec![in heap; UNTOUCHED; made as usize]?;
        Ok(BlockBuffer {
            bytes,
            rest: room - made,
        })
    }

    // A copy to be shown.
    pub(crate) fn shown(&self, heap: Global) -> Result<ShownBytes, AllocError> {
        Ok(ShownBytes {
            bytes: self.bytes.to_vec(heap)?,
            untouched: self.rest,
        })
    }

    // Has the writer make a call with this buffer.
    pub(crate) fn write<M: Medium>(
        &mut self,
        medium: &mut M,
        call: &WriterCall,
    ) -> Result<Counts, WriterFault> {
        write(medium, call, &mut self.bytes)
    }
}

// Has the writer make a call.
pub(crate) fn write<M: Medium>(
    medium: &mut M,
    call: &WriterCall,
    buffer: &mut [u8],
) -> Result<Counts, WriterFault>
    ensures { WriteDone call.now (M.meaning medium.old) buffer.old result (M.meaning medium.new) buffer.new }
{
    match call {
        WriterCall::Put { place, bytes } => put(medium, *place, bytes, buffer),
        WriterCall::Plan { place, bytes } => plan(medium, *place, bytes, buffer),
        WriterCall::Clear { first, count } => clear(medium, *first, *count, buffer),
    }
}

// The bytes that a take of so many from a place shows. One that is longer than the medium is off the card, and is
// refused without a buffer.
pub(crate) fn taken<M: Medium>(
    heap: Global,
    medium: &mut M,
    place: u32,
    length: u32,
) -> Result<Vec<u8>, Trouble> {
    medium.size().test_range(place as u64, length as u64)?;
    let mut bytes = vec![in heap; 0; length as usize]?;
    take(medium, place, &mut bytes)?;
    Ok(bytes)
}
