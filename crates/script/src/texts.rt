// Values, as a record tells them.
use medium::{Fault, Lanes};
use std::fmt;

// The lanes that a fault names, if it names any.
#[derive(Clone, Copy)]
struct LanesText(Option<Lanes>);

impl fmt::Display for LanesText {
    fn fmt<W: fmt::Write>(&self, f: &mut fmt::Formatter<W>) -> fmt::Result {
        f.write_str(match self.0 {
            Some(Lanes::Even) => "even",
            Some(Lanes::Odd) => "odd",
            Some(Lanes::Both) => "both",
            None => "-",
        })
    }
}

// A fault, with its number, its place and its lanes.
#[derive(Clone, Copy)]
pub(crate) struct FaultText(pub(crate) Fault);

impl fmt::Display for FaultText {
    fn fmt<W: fmt::Write>(&self, f: &mut fmt::Formatter<W>) -> fmt::Result {
        let number = self.0.number();
        let place = self.0.place();
        let lanes = LanesText(self.0.lanes());
        write!(f, "fault {number} place={place} lanes={lanes}")
    }
}

// Whether the supply is good.
#[derive(Clone, Copy)]
pub(crate) struct SupplyText(pub(crate) bool);

impl fmt::Display for SupplyText {
    fn fmt<W: fmt::Write>(&self, f: &mut fmt::Formatter<W>) -> fmt::Result {
        f.write_str(if self.0 { "good" } else { "low" })
    }
}

// Whether a pin is on.
#[derive(Clone, Copy)]
pub(crate) struct PinText(pub(crate) bool);

impl fmt::Display for PinText {
    fn fmt<W: fmt::Write>(&self, f: &mut fmt::Formatter<W>) -> fmt::Result {
        f.write_str(if self.0 { "on" } else { "off" })
    }
}
