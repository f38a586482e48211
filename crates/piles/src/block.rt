// A block, as layers show it.
ghost use Rattle.std.specs.Prelude.{◌≡◌, ◌<◌};
ghost use Rattle.medium.specs.Meaning.{Meaning, Sound};
ghost use Rattle.piles.specs.Layered.{layer_meaning};
ghost use Rattle.piles.specs.Shown.{IsBlock, block_below, locked_by};

use crate::layered::Layer;
use std::fmt;

// The lock and the lives of a block. The lives stand flat and not as a `BlockLives`, since all three are told alike.
#[derive(Clone, Copy)]
pub struct BlockState {
    pub locked: bool,
    pub even: u32,
    pub odd: u32,
}

// The block below that a block behind a layer, or none, is.
pub fn block_below(layer: Option<Layer>, block: u32) -> u32
    ensures { result ≡ block_below layer block }
{
    match layer {
        Some(Layer::Window { first, .. }) => first.saturating_add(block),
        _ => block,
    }
}

// Whether a layer itself locks a block.
pub fn is_locked_by(layer: Option<Layer>, block: u32) -> bool
    ensures { result ≡ locked_by layer block }
{
    match layer {
        Some(Layer::Fence(marks)) => marks.has(block),
        _ => false,
    }
}

impl BlockState {
    // The lock and the lives of a block behind a layer, or none, by those of the block below that it is.
    pub fn behind(self, layer: Option<Layer>, block: u32) -> BlockState
        ensures { (m : Meaning) → Sound m → block < (layer_meaning layer m).blocks → IsBlock m (block_below layer block) self → IsBlock (layer_meaning layer m) block result }
    {
        BlockState {
            locked: is_locked_by(layer, block) || self.locked,
            even: self.even,
            odd: self.odd,
        }
    }
}

// As in "locked even=0 odd=7".
impl fmt::Display for BlockState {
    fn fmt<W: fmt::Write>(&self, f: &mut fmt::Formatter<W>) -> fmt::Result {
        let lock = if self.locked { "locked" } else { "open" };
        let even = self.even;
        let odd = self.odd;
        write!(f, "{lock} even={even} odd={odd}")
    }
}
