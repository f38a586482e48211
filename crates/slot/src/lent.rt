// A slot that is lent.
use crate::interface::{Slot, SlotSize};
use medium::Fault;

// What is lent is the slot itself, for as long as it is lent.
impl<S: Slot> Slot for &mut S {
    const PATIENCE: u32 = S::PATIENCE;

    ghost patience = { S.patience };

    ghost state = { λ r. S.state r.now };

    ghost small = { S.small };

    ghost sound = { λ r. S.sound r.now };

    ghost patient = { λ r k. S.patient r.now k };

    fn longest_wait() -> u32 {
        S::longest_wait()
    }

    fn size(&self) -> SlotSize {
        (**self).size()
    }

    fn read_word(&mut self, place: u32) -> Result<u16, Fault> {
        (**self).read_word(place)
    }

    fn write_word(&mut self, place: u32, word: u16) -> Result<(), Fault> {
        (**self).write_word(place, word)
    }

    fn sample(&mut self) -> bool {
        (**self).sample()
    }

    fn reset(&mut self) {
        (**self).reset();
    }

    fn pin(&self) -> bool {
        (**self).pin()
    }
}
