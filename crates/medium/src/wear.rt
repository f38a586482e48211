// How lives are given, asked for and spent.
ghost use Rattle.std.specs.Prelude.{◌≡◌, ℕ, replicate, slice_index, slice_set};
ghost use Rattle.medium.specs.Faults.{names_even, names_odd};
ghost use Rattle.medium.specs.Jobs.{answers, worn};
ghost use Rattle.medium.specs.Limits.{most_blocks};
ghost use Rattle.medium.specs.Wear.{alive, given, lane_after};

use crate::fault::Fault;
use crate::geometry::MOST_BLOCKS;
use crate::lanes::Lanes;
use crate::lives::{BlockLives, CardLives, LaneLives, LiveLanes};

impl LaneLives {
    // A lane without lives.
    pub fn none() -> LaneLives
        ensures { result.left ≡ replicate most_blocks 0 }
    {
        LaneLives {
            left: [0; MOST_BLOCKS],
        }
    }

    // The lives left on a block; none where no card has such a block.
    pub fn left(&self, block: usize) -> u32
        ensures { result ≡ slice_index self.now.left block }
    {
        self.left.get(block).copied().unwrap_or(0)
    }

    // Gives the lane so many lives on a block; nothing where no card has such a block.
    pub fn give(&mut self, block: usize, lives: u32)
        ensures { self.new.left ≡ slice_set self.old.left block lives }
    {
        // No `get_mut`: of an array that was written through it a proof knows the length alone.
        if block < MOST_BLOCKS {
            self.left[block] = lives;
        }
    }

    // Takes one life on a block, if there is one, and says whether there was: a lane without lives is worn.
    pub fn spend(&mut self, block: usize) -> bool
        ensures did { result ≡ alive self.old.left block }
        ensures left { self.new.left ≡ lane_after self.old.left block }
    {
        let lives = self.left(block);
        if lives == 0 {
            return false;
        }
        self.give(block, lives - 1);
        true
    }
}

impl CardLives {
    // Lanes without lives.
    pub fn none() -> CardLives
        ensures even { result.even.left ≡ replicate most_blocks 0 }
        ensures odd { result.odd.left ≡ replicate most_blocks 0 }
    {
        CardLives {
            even: LaneLives::none(),
            odd: LaneLives::none(),
        }
    }

    // The lives left on a block; none where no card has such a block.
    pub fn left(&self, block: usize) -> BlockLives
        ensures { result ≡ record { even = slice_index self.now.even.left block; odd = slice_index self.now.odd.left block } }
    {
        BlockLives {
            even: self.even.left(block),
            odd: self.odd.left(block),
        }
    }

    // Gives the lanes named so many lives on a block.
    pub fn give(&mut self, lanes: Lanes, block: usize, lives: u32)
        ensures even { self.new.even.left ≡ given (names_even lanes) self.old.even.left block lives }
        ensures odd { self.new.odd.left ≡ given (names_odd lanes) self.old.odd.left block lives }
    {
        if lanes.has_even() {
            self.even.give(block, lives);
        }
        if lanes.has_odd() {
            self.odd.give(block, lives);
        }
    }

    // Takes one life of each lane on a block, where there is one, and says where there was: so does each job.
    pub fn spend(&mut self, block: usize) -> LiveLanes
        ensures did { result ≡ record { even = alive self.old.even.left block; odd = alive self.old.odd.left block } }
        ensures even { self.new.even.left ≡ lane_after self.old.even.left block }
        ensures odd { self.new.odd.left ≡ lane_after self.old.odd.left block }
    {
        LiveLanes {
            even: self.even.spend(block),
            odd: self.odd.spend(block),
        }
    }
}

impl LiveLanes {
    // What a job that these lanes began at a place answers: a fault that names the worn ones, if any.
    pub fn answer(self, place: u64) -> Result<(), Fault>
        ensures { result ≡ answers (worn place self.even self.odd) }
    {
        let lanes = match (self.even, self.odd) {
            (true, true) => return Ok(()),
            (false, true) => Lanes::Even,
            (true, false) => Lanes::Odd,
            (false, false) => Lanes::Both,
        };
        Err(Fault::Worn { place, lanes })
    }
}
