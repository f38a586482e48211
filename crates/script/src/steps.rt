// What is asked of a medium behind layers.
use crate::command::WriterCall;
use crate::pile::Step;
use crate::trouble::Trouble;
use crate::writing::{BlockBuffer, taken};
use medium::{Fault, Medium, Size};
use std::alloc::{AllocError, Global};
use writer::{Counts, Job, WriterFault};

// Its size.
#[derive(Clone, Copy)]
pub(crate) struct AskSize;

impl Step for AskSize {
    type Answer = Size;

    fn run<M: Medium>(self, medium: &mut M) -> Size {
        medium.size()
    }
}

// A job of its own.
impl Step for Job {
    type Answer = Result<(), Fault>;

    fn run<M: Medium>(self, medium: &mut M) -> Result<(), Fault> {
        self.done_by(medium)
    }
}

// A take of so many bytes from a place.
#[derive(Clone, Copy)]
pub(crate) struct Take {
    pub(crate) heap: Global,
    pub(crate) place: u32,
    pub(crate) length: u32,
}

impl Step for Take {
    type Answer = Result<Vec<u8>, Trouble>;

    fn run<M: Medium>(self, medium: &mut M) -> Result<Vec<u8>, Trouble> {
        taken(self.heap, medium, self.place, self.length)
    }
}

// A call of the writer, with a buffer of so much room, or of a block.
#[derive(Drop)]
pub(crate) struct Write {
    pub(crate) heap: Global,
    pub(crate) call: WriterCall,
    pub(crate) room: Option<u32>,
}

// What such a call answered, and the buffer that it left.
#[derive(Drop)]
pub(crate) struct Written {
    pub(crate) answer: Result<Counts, WriterFault>,
    pub(crate) buffer: BlockBuffer,
}

impl Step for Write {
    type Answer = Result<Written, AllocError>;

    fn run<M: Medium>(self, medium: &mut M) -> Result<Written, AllocError> {
        let Write { heap, call, room } = self;
        let block_size = medium.size().block_size;
        let mut buffer = BlockBuffer::new(heap, room.unwrap_or(block_size), block_size)?;
        let answer = buffer.write(medium, &call);
        Ok(Written { answer, buffer })
    }
}
