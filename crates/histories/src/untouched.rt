// Switches that nobody touches.
ghost use Rattle.std.specs.Prelude.{◌≡◌};

use crate::switches::Switches;
use medium::Medium;

// Leaves lock and supply where they are.
#[derive(Clone, Copy, PartialEq, Eq, Debug)]
pub struct Untouched;

impl<M: Medium> Switches<M> for Untouched {
    ghost moves = { λ s at m n t. n ≡ m };

    fn between(&mut self, _at: usize, _medium: &mut M) {}
}
