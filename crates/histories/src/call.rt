// A call of the block writer as a value.
ghost use Rattle.std.specs.Prelude.{◌≡◌};
ghost use Rattle.histories.specs.declared.answer.Answer.TheVariants.{Waiting};

use crate::answer::Answer;
use crate::request::Request;

// On which medium, what it asks, the buffer that it works with, and its answer. A put, clear or plan wants a buffer of
// a block at least; a take fills all of it.
#[derive(Drop, PartialEq, Eq, Debug)]
pub struct Call {
    pub medium: usize,
    pub request: Request,
    pub buffer: Vec<u8>,
    pub answer: Answer,
}

impl Call {
    // A call that waits to be carried out.
    pub fn new(medium: usize, request: Request, buffer: Vec<u8>) -> Call
        ensures { result ≡ record { medium = medium; request = request; buffer = buffer; answer = Waiting } }
    {
        Call {
            medium,
            request,
            buffer,
            answer: Answer::Waiting,
        }
    }
}
