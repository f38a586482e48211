// Switches of a slot that are moved through what holds the slot.
ghost use Rattle.slot.specs.State.{SlotSwitched};

use crate::interface::Slot;

// A turn of a slot's switches: its protect pin and its supply. What holds the slot lends it for one turn, so that
// nobody keeps a hold of it.
// The switches of a medium have a trait of their own: one for both wants an impl for every medium and one for every slot.
pub trait SlotSwitch<S: Slot> {
    // what a turn does: the switch and the slot before it, the slot and the switch after it
    ghost turns: { Self → S → S → Self → Type 0 };

    // Moves nothing but pin and supply.
    fn turn(&mut self, slot: &mut S)
        ensures turns { turns self.old slot.old slot.new self.new }
        ensures only { SlotSwitched (S.Slot.state slot.old) (S.Slot.state slot.new) };
}
