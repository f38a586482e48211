// The table of faults.
ghost use Rattle.std.specs.Prelude.{◌≡◌};
ghost use Rattle.medium.specs.Faults.{listed, moved_to, worn_lanes};

use crate::lanes::Lanes;
use thiserror::Error;

// Why a call did not do what was asked, and where. `listed` (specs/Faults) gives each case its number.
#[derive(Clone, Copy, PartialEq, Eq, Debug, Error)]
pub enum Fault {
    // 1: the place and length asked end past the capacity, or there is no such block
    #[error("fault 1: off the card, place {place}")]
    OffCard { place: u64 },
    // 2: a word at an odd place
    #[error("fault 2: odd place, place {place}")]
    OddPlace { place: u64 },
    // 3: a block buffer smaller than a block
    #[error("fault 3: short buffer, place {place}")]
    ShortBuffer { place: u64 },
    // 4: a job on a locked block
    #[error("fault 4: locked, place {place}")]
    Locked { place: u64 },
    // 5: a job while the supply is low
    #[error("fault 5: low supply, place {place}")]
    LowSupply { place: u64 },
    // 6: a begun job met lanes without lives: exactly these
    #[error("fault 6: worn, {lanes}, place {place}")]
    Worn { place: u64, lanes: Lanes },
    // 7: a geometry outside the limits
    #[error("fault 7: no such geometry")]
    NoSuchGeometry,
}

impl Fault {
    // Its number in the table: a number, since C and the records of scripts tell a fault by it.
    pub fn number(self) -> u8
        ensures { result ≡ (listed self).number }
    {
        match self {
            Fault::OffCard { .. } => 1,
            Fault::OddPlace { .. } => 2,
            Fault::ShortBuffer { .. } => 3,
            Fault::Locked { .. } => 4,
            Fault::LowSupply { .. } => 5,
            Fault::Worn { .. } => 6,
            Fault::NoSuchGeometry => 7,
        }
    }

    // The place of the word or of the block's first byte, or the place asked; 0 where no place was asked.
    pub fn place(self) -> u64
        ensures { result ≡ (listed self).place }
    {
        match self {
            Fault::OffCard { place }
            | Fault::OddPlace { place }
            | Fault::ShortBuffer { place }
            | Fault::Locked { place }
            | Fault::LowSupply { place }
            | Fault::Worn { place, .. } => place,
            Fault::NoSuchGeometry => 0,
        }
    }

    // The same fault at another place; where it has no place, as it is.
    pub fn moved_to(self, place: u64) -> Fault
        ensures { result ≡ moved_to place self }
    {
        match self {
            Fault::OffCard { .. } => Fault::OffCard { place },
            Fault::OddPlace { .. } => Fault::OddPlace { place },
            Fault::ShortBuffer { .. } => Fault::ShortBuffer { place },
            Fault::Locked { .. } => Fault::Locked { place },
            Fault::LowSupply { .. } => Fault::LowSupply { place },
            Fault::Worn { lanes, .. } => Fault::Worn { place, lanes },
            Fault::NoSuchGeometry => Fault::NoSuchGeometry,
        }
    }

    // The lanes that it names as worn.
    pub fn lanes(self) -> Option<Lanes>
        ensures { result ≡ worn_lanes self }
    {
        match self {
            Fault::Worn { lanes, .. } => Some(lanes),
            _ => None,
        }
    }
}
