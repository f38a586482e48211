// Carries out lists of calls.
ghost use Rattle.std.specs.Prelude.{map, ◌<◌};
ghost use Rattle.medium.specs.Meaning.{EachBelow};
ghost use Rattle.writer.specs.Put.{PutDone};
ghost use Rattle.histories.specs.Law.{LawOfHistories};
ghost use Rattle.histories.specs.Performed.{Performed, Carried, Switched, Made};

use crate::answer::Answer;
use crate::call::Call;
use crate::request::Request;
use crate::switches::Switches;
use medium::Medium;
use writer::{Counts, WriterFault, clear, plan, put, take};

// Carries out the calls in order, each on the medium that it names, with a move of that medium's lock and supply
// before it; answers and buffers are left in the calls. A call that names no medium is told so, and changes nothing.
//
// `performed` says what the list did, and that each medium kept the law at each moment of it; `law` is the law of
// every history at all.
pub fn perform<M: Medium, S: Switches<M>>(media: &mut [M], calls: &mut [Call], switches: &mut S)
    ensures performed { Performed S.moves (map M.meaning media.old) (map M.meaning media.new) switches.old switches.new calls.old calls.new }
    ensures law { LawOfHistories }
{
    for (at, call) in calls.iter_mut().enumerate() {
        let number = call.medium;
        // No `get_mut`: of a slice that was written through it a proof knows the length alone.
        if number < media.len() {
            carry_out(at, &mut media[number], call, switches);
        } else {
            call.answer = Answer::NoSuchMedium;
        }
    }
}

// Call number `at` on its medium, after a move of lock and supply.
fn carry_out<M: Medium, S: Switches<M>>(
    at: usize,
    medium: &mut M,
    call: &mut Call,
    switches: &mut S,
)
    ensures { Carried S.moves (M.meaning medium.old) (M.meaning medium.new) at switches.old switches.new call.old call.new }
{
    move_switches(at, medium, switches);
    call.answer = make(medium, &call.request, &mut call.buffer);
}

// Lock and supply of the medium of call number `at`, moved as the switches have it.
fn move_switches<M: Medium, S: Switches<M>>(at: usize, medium: &mut M, switches: &mut S)
    ensures { Switched S.moves (M.meaning medium.old) (M.meaning medium.new) at switches.old switches.new }
{
    switches.between(at, medium);
}

// A put. Of bytes that are passed as a slice a proof knows that each is below 256; of those in a request it does not.
fn put_bytes<M: Medium>(
    medium: &mut M,
    place: u32,
    bytes: &[u8],
    buffer: &mut [u8],
) -> Result<Counts, WriterFault>
    ensures done { PutDone (M.meaning medium.old) place bytes.now buffer.old result (M.meaning medium.new) buffer.new }
    ensures fit { EachBelow 256 bytes.now }
{
    put(medium, place, bytes, buffer)
}

// The writer's call that a request asks for.
fn make<M: Medium>(medium: &mut M, request: &Request, buffer: &mut [u8]) -> Answer
    ensures { Made (M.meaning medium.old) request.now buffer.old result (M.meaning medium.new) buffer.new }
{
    match request {
        Request::Put { place, bytes } => {
            Answer::Written(put_bytes(medium, *place, bytes, buffer))
        }
        Request::Clear { first, count } => Answer::Written(clear(medium, *first, *count, buffer)),
        Request::Take { place } => Answer::Taken(take(medium, *place, buffer)),
        Request::Plan { place, bytes } => Answer::Planned(plan(medium, *place, bytes, buffer)),
    }
}
