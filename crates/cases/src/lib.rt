// The worked cases: a table of small puts, and of bytes and words sent to devices, whose outcomes are known by hand, and
// which is proved; and tests of layers over memory cards. docs/cases.md tells the cases one by one.
#![tactic(auto)]

#[cfg(test)]
mod answers;
mod card;
#[cfg(test)]
mod piles;
#[cfg(test)]
mod rows;
mod table;
#[cfg(test)]
mod tests;

pub use card::small_card;
pub use table::{CardState, Cases, CycleCase, DeviceCase, PutCase, worked_cases};
