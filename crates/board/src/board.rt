// The parts of a board.
ghost use Rattle.std.specs.Prelude.{◌≡◌, ℕ, ◌*◌, vec_len};
ghost use Rattle.medium.specs.Meaning.{EachBelow};
ghost use Rattle.devices.specs.Table.{table_pairs};

use crate::waits::Waits;
use devices::DeviceTable;
use medium::{CardLives, Geometry};

// A card but for its switches and its address lines. One whose bytes were not of the geometry's capacity has no
// devices, and so no blocks, and no bytes.
#[derive(Drop)]
pub struct Board {
    pub(crate) geometry: Geometry,
    pub(crate) bytes: Vec<u8>,
    pub(crate) wear: CardLives,
    pub(crate) table: DeviceTable,
    pub(crate) waits: Waits,
    ghost filled: { vec_len bytes ≡ (geometry.blocks_per_pair * table_pairs table) * geometry.block_size },
    ghost small: { EachBelow 256 bytes.items },
}
