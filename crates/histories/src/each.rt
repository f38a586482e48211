// Switches for media of two kinds.
ghost use Rattle.std.specs.Prelude.{◌≡◌, ◌⊎◌};

use crate::either::Either;
use crate::switches::Switches;
use medium::Medium;

// The switches for the one kind, and those for the other.
#[derive(Drop, Clone, PartialEq, Eq, Debug)]
pub struct Each<S, T> {
    pub first: S,
    pub second: T,
}

impl<P: Medium, Q: Medium, S: Switches<P>, T: Switches<Q>> Switches<Either<P, Q>> for Each<S, T> {
    // one of the two moved, and the other is as it was
    ghost moves = { λ s at m n t. (S.moves s.first at m n t.first × (t.second ≡ s.second)) ⊎ (T.moves s.second at m n t.second × (t.first ≡ s.first)) };

    fn between(&mut self, at: usize, medium: &mut Either<P, Q>) {
        match medium {
            Either::First(a) => self.first.between(at, a),
            Either::Second(b) => self.second.between(at, b),
        }
    }
}
