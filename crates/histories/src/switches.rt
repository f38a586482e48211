// What moves lock and supply between calls.
ghost use Rattle.std.specs.Prelude.{ℕ};
ghost use Rattle.medium.specs.Meaning.{Meaning};
ghost use Rattle.medium.specs.Switches.{OnlySwitched};

use medium::Medium;

// The switches of the media in a list, which `perform` lets move before each call.
// A trait and no closure: each impl proves that nothing else moves, so `perform` requires nothing of its callers.
// Not the `Switch` of a layer: that speaks of the medium itself, this of what it means and of the call's number.
pub trait Switches<M: Medium> {
    // holds of the switches before call number `at`, the medium before and after the move, and the switches after it
    ghost moves: { Self → ℕ → Meaning → Meaning → Self → Type 0 };

    // Moves lock and supply of the medium that call number `at` is about to be made on, and nothing else.
    fn between(&mut self, at: usize, medium: &mut M)
        ensures moves { moves self.old at (M.meaning medium.old) (M.meaning medium.new) self.new }
        ensures only { OnlySwitched (M.meaning medium.old) (M.meaning medium.new) };
}
