// A hand on the lock switch of memory cards.
ghost use Rattle.std.specs.Prelude.{◌≡◌, ◌==◌};
ghost use Rattle.memory.specs.Switches.{with_locks};

use histories::Switches;
use memory::MemoryCard;

// Locks the card before one call of the list, and unlocks it before every other.
#[derive(Clone, Copy)]
pub(crate) struct LockedAt {
    pub(crate) call: usize,
}

impl Switches<MemoryCard> for LockedAt {
    ghost moves = { λ s at m n t. (n ≡ with_locks m (at == s.call)) × (t ≡ s) };

    fn between(&mut self, at: usize, medium: &mut MemoryCard) {
        medium.set_locked(at == self.call);
    }
}

// Locks nothing: no list is that long.
pub(crate) const NEVER: LockedAt = LockedAt { call: usize::MAX };
