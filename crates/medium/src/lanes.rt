// The lanes of a block.
ghost use Rattle.std.specs.Prelude.{◌≡◌};
ghost use Rattle.medium.specs.Faults.{names_even, names_odd};

use std::fmt;

// Lanes of one block. The even lane is the block's bytes at even places, the odd lane is the rest; each is held
// by one device of a pair, and wears by itself.
#[derive(Clone, Copy, PartialEq, Eq, Debug)]
pub enum Lanes {
    Even,
    Odd,
    Both,
}

impl Lanes {
    pub fn has_even(self) -> bool
        ensures { result ≡ names_even self }
    {
        matches!(self, Lanes::Even | Lanes::Both)
    }

    pub fn has_odd(self) -> bool
        ensures { result ≡ names_odd self }
    {
        matches!(self, Lanes::Odd | Lanes::Both)
    }
}

impl fmt::Display for Lanes {
    fn fmt<W: fmt::Write>(&self, f: &mut fmt::Formatter<W>) -> fmt::Result {
        let text = match self {
            Lanes::Even => "even lane",
            Lanes::Odd => "odd lane",
            Lanes::Both => "both lanes",
        };
        f.write_str(text)
    }
}
