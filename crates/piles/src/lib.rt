// Piles: a layer or none over a medium, chosen as the program runs.
//
// `Layer` is a window's run or a fence's marks, without the medium below, so that it can be kept apart from the card and
// laid over it, or over a loan of it, for a call. `Layered` is a medium behind such a layer or none, and is a medium for
// every medium below; one for each layer makes a pile.
#![tactic(auto)]

mod block;
mod layered;

pub use block::{BlockState, block_below, is_locked_by};
pub use layered::{Layer, Layered, mark};
