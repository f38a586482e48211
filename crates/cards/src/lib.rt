// Two simulated cards, the Series 2 card and the Value Series 100 card, down to their bus cycles.
//
// Both are a board (crate board) and a wiring: where an address leads, which device a byte cycle picks, and what
// stands at the protect pin and at the supply. What differs between the two cards is told apart by their wirings
// and nowhere else; `Card` is one text for both, is a slot, and takes raw bus cycles of three widths.
#![tactic(auto)]

mod access;
mod card;
mod cycles;
mod series100;
mod series2;
mod slot_of_card;
mod wiring;

pub use access::Width;
pub use card::Card;
pub use series2::{Series2, Series2Card, Series2Switches};
pub use series100::{Series100, Series100Card};
pub use wiring::Wiring;
