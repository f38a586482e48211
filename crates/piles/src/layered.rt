// A medium behind a layer or none.
ghost use Rattle.std.specs.Prelude.{◌≡◌, if◌then◌else◌, nat_le, slice_set};
ghost use Rattle.medium.specs.Jobs.{answers, no_block};
ghost use Rattle.piles.specs.Layered.{below_of, layer_meaning, of_layered};
ghost use Rattle.layers.specs.Shown.{window_sound};
ghost use Rattle.layers.specs.Fenced.{fence_sound};
ghost use Rattle.piles.specs.declared.layered.Layered.TheVariants.{Bare, Windowed, Fenced};

use layers::{Fence, Marks, Window};
use medium::{Fault, Medium, Size};

// A layer, without the medium below it.
#[derive(Clone, Copy)]
pub enum Layer {
    Window { first: u32, count: u32 },
    Fence(Marks),
}

// A medium behind a layer, or bare. An enum of its own and no nested `Either`: its cases have names.
#[derive(Drop)]
pub enum Layered<M> {
    Bare(M),
    Windowed(Window<M>),
    Fenced(Fence<M>),
}

impl<M: Medium> Layered<M> {
    // Lays a layer, if there is one, over a medium.
    pub fn new(layer: Option<Layer>, below: M) -> Layered<M>
        ensures meaning { of_layered M.meaning result ≡ layer_meaning layer (M.meaning below) }
        ensures below { below_of result ≡ below }
    {
        match layer {
            None => Layered::Bare(below),
            Some(Layer::Window { first, count }) => {
                Layered::Windowed(Window::new(below, first, count))
            }
            Some(Layer::Fence(marks)) => Layered::Fenced(Fence::with_marks(below, marks)),
        }
    }

    // Gives the medium below back.
    pub fn into_below(self) -> M
        ensures { result ≡ below_of self }
    {
        match self {
            Layered::Bare(medium) => medium,
            Layered::Windowed(window) => window.into_below(),
            Layered::Fenced(fence) => fence.into_below(),
        }
    }
}

// What every call of a medium does: that of whichever medium there is.
impl<M: Medium> Medium for Layered<M> {
    ghost meaning = { λ l. of_layered M.meaning l };

    ghost sound = { elim [
      | Bare m ↦ M.sound m
      | Windowed w ↦ window_sound (M.meaning w.below) w.run (M.sound w.below)
      | Fenced f ↦ fence_sound (M.meaning f.below) f.marks.marked (M.sound f.below)
    ] };

    fn size(&self) -> Size {
        match self {
            Layered::Bare(medium) => medium.size(),
            Layered::Windowed(window) => window.size(),
            Layered::Fenced(fence) => fence.size(),
        }
    }

    fn read(&mut self, place: u32, buffer: &mut [u8]) -> Result<(), Fault> {
        match self {
            Layered::Bare(medium) => medium.read(place, buffer),
            Layered::Windowed(window) => window.read(place, buffer),
            Layered::Fenced(fence) => fence.read(place, buffer),
        }
    }

    fn write_word(&mut self, place: u32, word: u16) -> Result<(), Fault> {
        match self {
            Layered::Bare(medium) => medium.write_word(place, word),
            Layered::Windowed(window) => window.write_word(place, word),
            Layered::Fenced(fence) => fence.write_word(place, word),
        }
    }

    fn wipe(&mut self, block: u32) -> Result<(), Fault> {
        match self {
            Layered::Bare(medium) => medium.wipe(block),
            Layered::Windowed(window) => window.wipe(block),
            Layered::Fenced(fence) => fence.wipe(block),
        }
    }
}

// Marks a block behind a fence with these marks over a medium, or clears its mark.
pub fn mark<M: Medium>(below: &mut M, marks: &mut Marks, block: u32, on: bool) -> Result<(), Fault>
    ensures below { below.new ≡ below.old }
    ensures marks { marks.new.marked ≡ (if nat_le (M.meaning below.old).blocks block then marks.old.marked else slice_set marks.old.marked block on) }
    ensures answer { result ≡ answers (no_block (M.meaning below.old) block) }
{
    let mut fence = Fence::with_marks(below, *marks);
    let answer = fence.mark(block, on);
    *marks = fence.marks();
    answer
}
