// The geometry of a card.
ghost use Rattle.std.specs.Prelude.{◌≡◌, ℕ, ◌*◌, ◌≤◌, IfOk, IfErr};
ghost use Rattle.medium.specs.Limits.{Limits, Within, most_blocks};
ghost use Rattle.medium.specs.declared.fault.Fault.TheVariants.{NoSuchGeometry};

use crate::fault::Fault;

// Blocks in all that a card may have: 16 to a device pair, and 10 pairs.
pub const MOST_BLOCKS: usize = 160;

// Bytes to a block, blocks to a device pair, and pairs, all within the limits: no value of this type is outside
// them, so no call tests them again.
#[derive(Clone, Copy, Debug)]
pub struct Geometry {
    block_size: u32,
    blocks_per_pair: u32,
    pairs: u32,
    ghost within: { Within block_size blocks_per_pair pairs },
}

impl Geometry {
    pub fn new(block_size: u32, blocks_per_pair: u32, pairs: u32) -> Result<Geometry, Fault>
        ensures made { IfOk result (λ g. (g.block_size ≡ block_size) × (g.blocks_per_pair ≡ blocks_per_pair) × (g.pairs ≡ pairs)) }
        ensures refused { IfErr result (λ f. (f ≡ NoSuchGeometry) × (Limits block_size blocks_per_pair pairs → ⊥)) }
    {
        if !block_size.is_power_of_two() || block_size < 2 || block_size > 131_072 {
            return Err(Fault::NoSuchGeometry);
        }
        if blocks_per_pair < 1 || blocks_per_pair > 16 || pairs < 1 || pairs > 10 {
            return Err(Fault::NoSuchGeometry);
        }
        Ok(Geometry {
            block_size,
            blocks_per_pair,
            pairs,
        })
    }

    pub fn block_size(self) -> u32
        ensures { result ≡ self.block_size }
    {
        self.block_size
    }

    pub fn blocks_per_pair(self) -> u32
        ensures { result ≡ self.blocks_per_pair }
    {
        self.blocks_per_pair
    }

    pub fn pairs(self) -> u32
        ensures { result ≡ self.pairs }
    {
        self.pairs
    }

    // Blocks of all pairs.
    pub fn blocks(self) -> u32
        ensures value { result ≡ self.blocks_per_pair * self.pairs }
        ensures few { result ≤ most_blocks }
    {
        self.blocks_per_pair * self.pairs
    }

    // Bytes of all blocks.
    pub fn capacity(self) -> u32
        ensures { result ≡ self.blocks_per_pair * self.pairs * self.block_size }
    {
        self.blocks() * self.block_size
    }
}
