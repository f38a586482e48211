// The card that the worked cases run on.
ghost use Rattle.std.specs.Prelude.{◌≡◌, IfOk};
ghost use Rattle.memory.specs.Card.{card_meaning};
ghost use Rattle.cases.specs.Small.{small};

use medium::{Geometry, Lanes};
use memory::MemoryCard;
use std::alloc::{AllocError, Global};

// Two blocks of four bytes, all FFH, with 100 lives to a lane.
pub fn small_card(heap: Global) -> Result<MemoryCard, AllocError>
    ensures { IfOk result (λ c. card_meaning c ≡ small) }
{
    let geometry = Geometry::new(4, 2, 1).unwrap();
    let bytes = vec![in heap; 255; 8]?;
    let mut card = MemoryCard::new(geometry, bytes);
    let _ = card.set_lives(0, Lanes::Both, 100);
    let _ = card.set_lives(1, Lanes::Both, 100);
    Ok(card)
}
