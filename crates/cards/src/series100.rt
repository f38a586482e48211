// The Value Series 100 card.
ghost use Rattle.std.specs.Prelude.{◌≡◌, true, false, nat_eq};
ghost use Rattle.board.specs.Made.{new_card};
ghost use Rattle.cards.specs.Access.{leads_100};
ghost use Rattle.cards.specs.Meant.{of_series100};
ghost use Rattle.std.proofs.Common.{arith, mod-eq_of_lt};
ghost use Rattle.std.proofs.lemmas.Bool.{ne_eqb};

use crate::card::Card;
use crate::wiring::Wiring;
use board::Board;
use medium::Geometry;

// Its wiring: no protection, a supply that is always good, and addresses that wrap at the capacity.
#[derive(Clone, Copy, PartialEq, Eq, Debug)]
pub struct Series100;

pub type Series100Card = Card<Series100>;

impl Wiring for Series100 {
    ghost switches = { λ _. record { supply = true; pin = false } };

    ghost leads = { leads_100 };

    ghost picks = { λ _. false };

    ghost direct = { λ n a h l. let t : nat_eq n 0 ≡ false = ne_eqb n 0 (omega arith) in rw t (mod-eq_of_lt l) };

    fn is_supply_good(&self) -> bool {
        true
    }

    fn is_pin_on(&self) -> bool {
        false
    }

    fn lead(capacity: u32, address: u32) -> u32 {
        if capacity == 0 {
            return address;
        }
        address % capacity
    }

    fn picks_odd(_address: u32) -> bool {
        false
    }
}

impl Card<Series100> {
    // A card over these bytes, with no lives and no waits.
    pub fn new(geometry: Geometry, bytes: Vec<u8>) -> Series100Card
        ensures { of_series100 result ≡ new_card geometry.block_size geometry.blocks_per_pair geometry.pairs bytes.items }
    {
        Card {
            board: Board::new(geometry, bytes),
            wiring: Series100,
        }
    }
}
