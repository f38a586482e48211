// The medium: what every card, layer and driver of this repository is to the code above it.
//
// A medium is blocks of bytes. A read fills a buffer from a place; a job writes one word or wipes one
// block. `Meaning` (in specs/) is the state that these calls speak of, and the trait's contracts say on every
// input what a call answers, what it leaves of that state, and what it leaves in the buffer. Nothing is left
// open but the bytes of a lane that has no lives left, and those are bounded.
//
// The crate also has what all cards share: the table of faults, the lanes of a block and their lives, and the
// geometry, which cannot exist outside its limits.
#![tactic(auto)]

mod fault;
mod geometry;
mod interface;
mod lanes;
mod lent;
mod lives;
mod size;
#[cfg(test)]
mod tests;
mod wear;

pub use fault::Fault;
pub use geometry::{Geometry, MOST_BLOCKS};
pub use interface::Medium;
pub use lanes::Lanes;
pub use lives::{BlockLives, CardLives, LaneLives, LiveLanes};
pub use size::{Size, test_word};
