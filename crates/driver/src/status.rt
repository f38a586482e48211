// What the status bytes of a pair of devices say.
ghost use Rattle.std.specs.Prelude.{◌≡◌, ◌&&◌, slice_index};
ghost use Rattle.medium.specs.Jobs.{answers};
ghost use Rattle.driver.specs.Status.{flag, verdict};

use medium::{Fault, LiveLanes};

// The status byte of a device.
#[derive(Clone, Copy, PartialEq, Eq, Debug)]
pub(crate) struct StatusByte(pub(crate) u8);

impl StatusByte {
    // Bit 7: its wait is over.
    fn is_ready(self) -> bool
        ensures { result ≡ flag 0x80 self.0 }
    {
        self.0 & 0x80 != 0
    }

    // Bit 5 or 4: its lane is worn.
    fn is_worn(self) -> bool
        ensures { result ≡ flag 0x30 self.0 }
    {
        self.0 & 0x30 != 0
    }

    // Bit 3: the supply was low.
    fn is_low(self) -> bool
        ensures { result ≡ flag 0x08 self.0 }
    {
        self.0 & 0x08 != 0
    }
}

// The status of both devices of a pair.
#[derive(Clone, Copy, PartialEq, Eq, Debug)]
pub(crate) struct PairStatus {
    pub(crate) even: StatusByte,
    pub(crate) odd: StatusByte,
}

impl PairStatus {
    // From the bytes that they show, the even device's first.
    pub(crate) fn new(bytes: [u8; 2]) -> PairStatus
        ensures even { result.even.0 ≡ slice_index bytes 0 }
        ensures odd { result.odd.0 ≡ slice_index bytes 1 }
    {
        let [even, odd] = bytes;
        PairStatus {
            even: StatusByte(even),
            odd: StatusByte(odd),
        }
    }

    // The waits of both are over.
    pub(crate) fn is_ready(self) -> bool
        ensures { result ≡ (flag 0x80 self.even.0 && flag 0x80 self.odd.0) }
    {
        self.even.is_ready() && self.odd.is_ready()
    }

    // The answer of a job at a place whose devices ended so.
    pub(crate) fn judge(self, place: u64) -> Result<(), Fault>
        ensures { result ≡ answers (verdict self.even.0 self.odd.0 place) }
    {
        if self.even.is_low() || self.odd.is_low() {
            return Err(Fault::LowSupply { place });
        }
        let live = LiveLanes {
            even: !self.even.is_worn(),
            odd: !self.odd.is_worn(),
        };
        live.answer(place)
    }
}
