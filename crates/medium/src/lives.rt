// Lives of a lane, of a block and of a card.
ghost use Rattle.std.specs.Prelude.{◌≡◌, ℕ, ◌^◌, length};
ghost use Rattle.medium.specs.Limits.{most_blocks};
ghost use Rattle.medium.specs.Meaning.{EachBelow};

use crate::geometry::MOST_BLOCKS;

// How many lives the lane has on each block, for as many blocks as any card may have. A life is one job that the
// lane will still do there.
#[derive(Clone, Copy)]
pub struct LaneLives {
    // An array and no `Vec`: to make a card neither allocates nor fails.
    pub(crate) left: [u32; MOST_BLOCKS],
    ghost long: { length left ≡ most_blocks },
    ghost fit: { EachBelow (2 ^ 32) left },
}

// The lives of both lanes of a card, block by block.
#[derive(Clone, Copy)]
pub struct CardLives {
    pub even: LaneLives,
    pub odd: LaneLives,
}

// The lives left on one block.
#[derive(Clone, Copy, PartialEq, Eq, Debug)]
pub struct BlockLives {
    pub even: u32,
    pub odd: u32,
}

// Which lanes of a block have a life as a job begins there: the others are worn.
#[derive(Clone, Copy, PartialEq, Eq, Debug)]
pub struct LiveLanes {
    pub even: bool,
    pub odd: bool,
}
