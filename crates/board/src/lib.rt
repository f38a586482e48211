// What both simulated cards are made of: bytes, lives and devices, and how a bus cycle reaches them.
//
// A board has a geometry, contents, lives for each lane, a table of devices, and two waits. It has no switches and
// no address lines: what a card adds of these stands in crate cards. Each device of a pair holds one lane, the
// even or the odd one (`Side`); a bus cycle reaches one device, or both, over a half of the bus each (`Reach`). A
// byte that reaches a device is taken by it, and a job that begins acts on the device's lane at once.
//
// `CardState` (in specs/) is the state that contracts speak of: the slot's state, and the two waits.
#![tactic(auto)]

mod board;
mod cycles;
mod lanes;
mod making;
mod side;
mod waits;

pub use board::Board;
pub use side::{Reach, Side};
pub use waits::Waits;
