// A window: a run of the blocks of the medium below.
ghost use Rattle.std.specs.Prelude.{◌≡◌, ◌*◌};
ghost use Rattle.medium.specs.Jobs.{ReadDone, WordDone, WipeDone};
ghost use Rattle.layers.specs.Window.{shown_run, of_window, answer_from, place_below, WindowWord, WindowWipe};
ghost use Rattle.layers.specs.Shown.{window_sound};

use crate::switch::{Layer, Switch};
use medium::{Fault, Medium, Size};

// Blocks in a row: the first, and how many.
#[derive(Clone, Copy)]
struct Run {
    first: u32,
    count: u32,
}

// What a window shows: its first block below, and its size.
#[derive(Clone, Copy)]
struct Shown {
    first: u32,
    size: Size,
}

impl Shown {
    // Where it begins below.
    fn start(self) -> u64
        ensures { result ≡ self.first * self.size.block_size }
    {
        self.first as u64 * self.size.block_size as u64
    }
}

// A run of the blocks of the medium below, counted from 0: its bytes, locks, lives and supply are theirs. A window
// that does not fit the medium below has no blocks.
#[derive(Drop)]
pub struct Window<M> {
    below: M,
    run: Run,
}

// An answer of the medium below as the window gives it that begins at `start`: a fault's place counts from there.
fn brought_back(start: u64, answer: Result<(), Fault>) -> Result<(), Fault>
    ensures { result ≡ answer_from start answer }
{
    answer.map_err(|fault| fault.moved_to(fault.place().saturating_sub(start)))
}

impl<M: Medium> Window<M> {
    // The blocks of `below` from block `first` on, `count` of them.
    pub fn new(below: M, first: u32, count: u32) -> Window<M>
        ensures below { result.below ≡ below }
        ensures first { result.run.first ≡ first }
        ensures count { result.run.count ≡ count }
    {
        Window {
            below,
            run: Run { first, count },
        }
    }

    // Gives the medium below back. A method and no call of `Layer`: a pile is taken apart with no trait in scope.
    pub fn into_below(self) -> M
        ensures { result ≡ self.below }
    {
        let Window { below, run: _ } = self;
        below
    }

    // What it shows: its run, or no blocks where the medium below has not all of it.
    fn shown(&self) -> Shown
        ensures first { result.first ≡ (shown_run (M.meaning self.now.below) self.now.run).first }
        ensures count { result.size.blocks ≡ (shown_run (M.meaning self.now.below) self.now.run).count }
        ensures block_size { result.size.block_size ≡ (M.meaning self.now.below).block_size }
    {
        let Size { block_size, blocks } = self.below.size();
        let Run { first, count } = self.run;
        let fits = first as u64 + count as u64 <= blocks as u64;
        let (first, blocks) = if fits { (first, count) } else { (0, 0) };
        Shown {
            first,
            size: Size { block_size, blocks },
        }
    }

    // The place below of `length` bytes from `place` on, if the window has them.
    fn lowered(&self, place: u32, length: u64) -> Result<u32, Fault>
        ensures { result ≡ place_below (M.meaning self.now.below) self.now.run place length }
    {
        let shown = self.shown();
        shown.size.test_range(place as u64, length)?;
        Ok((shown.start() + place as u64) as u32)
    }
}

impl<M: Medium> Medium for Window<M> {
    ghost meaning = { λ w. of_window M.meaning w };

    ghost sound = { λ w. window_sound (M.meaning w.below) w.run (M.sound w.below) };

    fn size(&self) -> Size {
        self.shown().size
    }

    // The run stays through all three calls, and each says so itself: a clause speaks of its own call alone.
    fn read(&mut self, place: u32, buffer: &mut [u8]) -> Result<(), Fault>
        ensures medium { ReadDone (of_window M.meaning self.old) place buffer.old result (of_window M.meaning self.new) buffer.new }
        ensures below { M.meaning self.new.below ≡ M.meaning self.old.below }
        ensures run { self.new.run ≡ self.old.run }
    {
        let at = self.lowered(place, buffer.len() as u64)?;
        self.below.read(at, buffer)
    }

    fn write_word(&mut self, place: u32, word: u16) -> Result<(), Fault>
        ensures medium { WordDone (of_window M.meaning self.old) place word result (of_window M.meaning self.new) }
        ensures below { WindowWord M.meaning self.old place word self.new }
        ensures run { self.new.run ≡ self.old.run }
    {
        let at = self.lowered(place, 2)?;
        // where the window begins below
        let start = (at - place) as u64;
        brought_back(start, self.below.write_word(at, word))
    }

    fn wipe(&mut self, block: u32) -> Result<(), Fault>
        ensures medium { WipeDone (of_window M.meaning self.old) block result (of_window M.meaning self.new) }
        ensures below { WindowWipe M.meaning self.old block self.new }
        ensures run { self.new.run ≡ self.old.run }
    {
        let shown = self.shown();
        shown.size.find_block(block)?;
        brought_back(shown.start(), self.below.wipe(shown.first + block))
    }
}

impl<M: Medium> Layer for Window<M> {
    type Below = M;

    ghost below = { λ l. l.below };

    ghost stays = { λ l l'. l'.run ≡ l.run };

    fn turn_below<S: Switch<M>>(&mut self, switch: &mut S) {
        switch.turn(&mut self.below);
    }
}
