// A card is a slot.
ghost use Rattle.std.specs.Prelude.{◌≡◌, false};
ghost use Rattle.devices.specs.Chip.{longest_wait};
ghost use Rattle.devices.specs.Table.{all_ready};
ghost use Rattle.slot.specs.Cycles.{WordRead, WordWritten, cycle_read, cycle_refusal, sampled, unless, was_reset};
ghost use Rattle.board.specs.Held.{with_slot};
ghost use Rattle.cards.specs.Access.{reach};
ghost use Rattle.cards.specs.Raw.{written};
ghost use Rattle.cards.specs.Meant.{of_card};
ghost use Rattle.board.proofs.Limits.{board_sound};
ghost use Rattle.devices.proofs.Tables.{waits_bounded};
ghost use Rattle.std.proofs.Common.{rules};

use crate::access::Width;
use crate::card::Card;
use crate::wiring::Wiring;
use devices::LONGEST_WAIT;
use medium::Fault;
use slot::{Slot, SlotSize};

impl<W: Wiring> Slot for Card<W> {
    const PATIENCE: u32 = LONGEST_WAIT;

    ghost patience = { longest_wait };

    ghost state = { λ c. (of_card W.switches c).slot };

    ghost small = { Prim.search rules };

    ghost sound = { λ c. board_sound c.board (W.switches c.wiring).supply (W.switches c.wiring).pin };

    ghost patient = { λ c k. waits_bounded c.board.table k };

    fn longest_wait() -> u32 {
        LONGEST_WAIT
    }

    fn size(&self) -> SlotSize {
        self.board.size()
    }

    fn read_word(&mut self, place: u32) -> Result<u16, Fault>
        ensures slot { WordRead (of_card W.switches self.old).slot place result (of_card W.switches self.new).slot }
        ensures card { of_card W.switches self.new ≡ with_slot (of_card W.switches self.old) (of_card W.switches self.new).slot }
    {
        self.board.test_word(place)?;
        Ok(self.board.read_cycle(place, Width::Word.reach(false)))
    }

    fn write_word(&mut self, place: u32, word: u16) -> Result<(), Fault>
        ensures slot { WordWritten longest_wait (of_card W.switches self.old).slot place word result (of_card W.switches self.new).slot }
        ensures card { of_card W.switches self.new ≡ unless (cycle_refusal (of_card W.switches self.old).slot place) (of_card W.switches self.old) (written (of_card W.switches self.old) place (reach Width.Word false) word) }
    {
        self.board.test_word(place)?;
        self.send(place, Width::Word.reach(false), word);
        Ok(())
    }

    fn sample(&mut self) -> bool
        ensures answer { result ≡ all_ready (of_card W.switches self.old).slot.chips }
        ensures after { (of_card W.switches self.new).slot ≡ sampled (of_card W.switches self.old).slot }
        ensures card { of_card W.switches self.new ≡ with_slot (of_card W.switches self.old) (of_card W.switches self.new).slot }
    {
        self.board.sample()
    }

    fn reset(&mut self)
        ensures after { (of_card W.switches self.new).slot ≡ was_reset (of_card W.switches self.old).slot }
        ensures card { of_card W.switches self.new ≡ with_slot (of_card W.switches self.old) (of_card W.switches self.new).slot }
    {
        self.board.reset();
    }

    fn pin(&self) -> bool {
        self.wiring.is_pin_on()
    }
}
