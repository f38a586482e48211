// The fields of a memory card.
ghost use Rattle.std.specs.Prelude.{◌≡◌, ℕ, ◌*◌, ◌≤◌, vec_len};
ghost use Rattle.medium.specs.Limits.{most_blocks};
ghost use Rattle.medium.specs.Meaning.{EachBelow};

use medium::{CardLives, Geometry};

// A card in plain memory. A card whose bytes were not of the geometry's capacity has no blocks and no bytes.
#[derive(Drop)]
pub struct MemoryCard {
    pub(crate) geometry: Geometry,
    pub(crate) blocks: u32,
    pub(crate) bytes: Vec<u8>,
    pub(crate) lives: CardLives,
    pub(crate) locked: bool,
    pub(crate) supply_good: bool,
    ghost few: { blocks ≤ most_blocks },
    ghost filled: { vec_len bytes ≡ blocks * geometry.block_size },
    ghost small: { EachBelow 256 bytes.items },
}
