// The widths of a bus cycle, and the devices that each reaches.
ghost use Rattle.std.specs.Prelude.{◌≡◌};
ghost use Rattle.cards.specs.Access.{reach};

use board::{Reach, Side};

// How much of the data bus a cycle uses.
#[derive(Clone, Copy, PartialEq, Eq, Debug)]
pub enum Width {
    // both halves, each with its own device
    Word,
    // the low half
    Byte,
    // the high half, with the odd device
    OddByte,
}

impl Width {
    // The access table. For a byte cycle, `odd` says that it is the odd device's.
    pub fn reach(self, odd: bool) -> Reach
        ensures { result ≡ reach self odd }
    {
        let (low, high) = match (self, odd) {
            (Width::Word, _) => (Some(Side::Even), Some(Side::Odd)),
            (Width::Byte, false) => (Some(Side::Even), None),
            (Width::Byte, true) => (Some(Side::Odd), None),
            (Width::OddByte, _) => (None, Some(Side::Odd)),
        };
        Reach { low, high }
    }
}
