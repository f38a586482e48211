// The Series 2 card.
ghost use Rattle.std.specs.Prelude.{◌≡◌};
ghost use Rattle.board.specs.Held.{switched};
ghost use Rattle.board.specs.Made.{new_card};
ghost use Rattle.cards.specs.Access.{leads_2, picks_2};
ghost use Rattle.cards.specs.Meant.{of_series2};
ghost use Rattle.std.proofs.Common.{rules};

use crate::card::Card;
use crate::wiring::Wiring;
use board::Board;
use medium::Geometry;
use slot::SlotSwitch;

// Its wiring: a protect switch, which is the protect pin, and a supply switch. It has the address lines A0 to A24.
#[derive(Clone, Copy, PartialEq, Eq, Debug)]
pub struct Series2 {
    pub protect: bool,
    pub supply_good: bool,
}

pub type Series2Card = Card<Series2>;

// Where its two switches are to stand: a turn of both, through what holds the card.
pub type Series2Switches = Series2;

impl Wiring for Series2 {
    ghost switches = { λ w. record { supply = w.supply_good; pin = w.protect } };

    ghost leads = { leads_2 };

    ghost picks = { picks_2 };

    ghost direct = { Prim.search rules };

    fn is_supply_good(&self) -> bool {
        self.supply_good
    }

    fn is_pin_on(&self) -> bool {
        self.protect
    }

    fn lead(_capacity: u32, address: u32) -> u32 {
        address % 0x200_0000
    }

    fn picks_odd(address: u32) -> bool {
        address % 2 == 1
    }
}

impl Card<Series2> {
    // A card over these bytes, unprotected, with good supply, no lives and no waits.
    pub fn new(geometry: Geometry, bytes: Vec<u8>) -> Series2Card
        ensures { of_series2 result ≡ new_card geometry.block_size geometry.blocks_per_pair geometry.pairs bytes.items }
    {
        Card {
            board: Board::new(geometry, bytes),
            wiring: Series2 {
                protect: false,
                supply_good: true,
            },
        }
    }

    // Moves the protect switch.
    pub fn set_protect(&mut self, on: bool)
        ensures { of_series2 self.new ≡ switched (of_series2 self.old) (of_series2 self.old).slot.supply on }
    {
        self.wiring.protect = on;
    }

    // Makes the supply good or low.
    pub fn set_supply(&mut self, good: bool)
        ensures { of_series2 self.new ≡ switched (of_series2 self.old) good (of_series2 self.old).slot.pin }
    {
        self.wiring.supply_good = good;
    }
}

impl SlotSwitch<Series2Card> for Series2 {
    ghost turns = { λ s c d t. (of_series2 d ≡ switched (of_series2 c) s.supply_good s.protect) × (t ≡ s) };

    fn turn(&mut self, slot: &mut Series2Card) {
        slot.wiring = *self;
    }
}
