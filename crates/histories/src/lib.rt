// Lists of calls of the block writer over several media, and the law that every such list keeps.
//
// A `Call` is a put, clear, take or plan as a value, with its arguments, its buffer and its answer. `perform` carries
// out a list of them, each on the medium that it names, and leaves answers and buffers in the calls. Before each
// call the `Switches` may move that medium's lock and supply, and nothing else. Media of two kinds stand in one
// list as `Either`.
//
// The law (specs/Law) says of each medium, at each moment: its bytes are those last asked, no put or clear
// began more wipes or words than it had to, and every life lost is accounted for. The contract of `perform` has it of
// the list that ran, and of every history at all; docs/law.md tells it in plain words.
#![tactic(auto)]

mod answer;
mod call;
mod each;
mod either;
mod performing;
mod request;
mod switches;
mod untouched;

pub use answer::Answer;
pub use call::Call;
pub use each::Each;
pub use either::Either;
pub use performing::perform;
pub use request::Request;
pub use switches::Switches;
pub use untouched::Untouched;
