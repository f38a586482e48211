// One device of a pair, and which devices a bus cycle reaches.
ghost use Rattle.std.specs.Prelude.{◌≡◌};
ghost use Rattle.medium.specs.Wear.{alive, lane_after};
ghost use Rattle.board.specs.Sides.{pick, place_at};

use medium::CardLives;

// The even device of a pair, which holds the even lane of its blocks, or the odd one.
#[derive(Clone, Copy, PartialEq, Eq, Debug)]
pub enum Side {
    Even,
    Odd,
}

// The device that a cycle reaches over each half of the bus; none: the half is not driven.
#[derive(Clone, Copy, PartialEq, Eq, Debug)]
pub struct Reach {
    pub low: Option<Side>,
    pub high: Option<Side>,
}

impl Side {
    // Which of two it is: of the devices of a pair, of the bytes of a word, of the first places of a block.
    pub(crate) fn index(self) -> usize
        ensures { result ≡ pick self 0 1 }
    {
        match self {
            Side::Even => 0,
            Side::Odd => 1,
        }
    }

    // The place that the device holds of the word at a place.
    pub(crate) fn place(self, word: u32) -> usize
        ensures { result ≡ place_at word self }
    {
        word as usize + self.index()
    }

    // Takes one life of the lane on a block, if there is one, and says whether there was.
    pub(crate) fn spend(self, lives: &mut CardLives, block: usize) -> bool
        ensures did { result ≡ alive (pick self lives.old.even.left lives.old.odd.left) block }
        ensures even { lives.new.even.left ≡ pick self (lane_after lives.old.even.left block) lives.old.even.left }
        ensures odd { lives.new.odd.left ≡ pick self lives.old.odd.left (lane_after lives.old.odd.left block) }
    {
        match self {
            Side::Even => lives.even.spend(block),
            Side::Odd => lives.odd.spend(block),
        }
    }
}
