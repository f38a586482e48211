// The slot: a card behind its bus, and what every simulated or real card is to a driver.
//
// Behind a slot are pairs of flash devices, each pair with some blocks: the even device holds the even places, the
// odd one the odd places. A word on the bus reaches both devices of one pair, its low byte the even one. A driver
// can read and send words, ask by a sample whether all devices are ready, reset them, and ask for the protect pin.
//
// `SlotState` (in specs/) is the state that these calls speak of, and the trait's contracts say on every input what
// a call answers and leaves of all of it. Two things only are left open, and bounded: what a worn lane leaves, as
// for a medium, and how long a device waits after a job, which is at most the slot's patience.
#![tactic(auto)]

mod interface;
mod lent;
mod switch;

pub use interface::{Slot, SlotSize};
pub use medium::test_word;
pub use switch::SlotSwitch;
