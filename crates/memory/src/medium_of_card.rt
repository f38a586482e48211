// A memory card is a medium.
ghost use Rattle.std.specs.Prelude.{◌≡◌, ◌^◌};
ghost use Rattle.std.proofs.Common.{◌∙◌, sym, arith};
ghost use Rattle.medium.specs.Jobs.{answers};
ghost use Rattle.memory.specs.Card.{card_meaning, switched_off};
ghost use Rattle.std.proofs.lemmas.List.{length-take-le, length-replicate};
ghost use Rattle.medium.proofs.Below.{below_take};
ghost use Rattle.medium.proofs.Power.{block_power};

use crate::card::MemoryCard;
use crate::contents::{wipe_block, write_word_at};
use medium::{Fault, Medium, Size, test_word};

impl MemoryCard {
    // Its size as a medium.
    pub(crate) fn extent(&self) -> Size
        ensures block_size { result.block_size ≡ self.now.geometry.block_size }
        ensures blocks { result.blocks ≡ self.now.blocks }
    {
        Size {
            block_size: self.geometry.block_size(),
            blocks: self.blocks,
        }
    }

    // Whether the switches let a job at this place begin.
    fn admit(&self, place: u64) -> Result<(), Fault>
        ensures { result ≡ answers (switched_off self.now.locked self.now.supply_good place) }
    {
        if self.locked {
            return Err(Fault::Locked { place });
        }
        if !self.supply_good {
            return Err(Fault::LowSupply { place });
        }
        Ok(())
    }
}

impl Medium for MemoryCard {
    ghost meaning = { card_meaning };

    ghost sound = { λ m.
        let size = m.geometry.within.0 in
        record {
          power = block_power m.geometry.block_size size.0 size.1 size.2;
          few = m.few;
          filled = sym m.bytes.ok.0 ∙ m.filled;
          byte = m.small;
          lock_row = length-replicate m.blocks m.locked;
          even_row = length-take-le m.blocks m.lives.even.left (omega (arith, m.lives.even.long));
          odd_row = length-take-le m.blocks m.lives.odd.left (omega (arith, m.lives.odd.long));
          even_fit = below_take (2 ^ 32) m.blocks m.lives.even.left (omega arith) m.lives.even.fit;
          odd_fit = below_take (2 ^ 32) m.blocks m.lives.odd.left (omega arith) m.lives.odd.fit;
        } };

    fn size(&self) -> Size {
        self.extent()
    }

    fn read(&mut self, place: u32, buffer: &mut [u8]) -> Result<(), Fault> {
        let count = buffer.len();
        self.extent().test_range(place as u64, count as u64)?;
        let start = place as usize;
        buffer.copy_from_slice(&self.bytes[start..start + count]);
        Ok(())
    }

    fn write_word(&mut self, place: u32, word: u16) -> Result<(), Fault> {
        let at = place as u64;
        test_word(self.extent().capacity(), place)?;
        self.admit(at)?;
        let block = (place / self.geometry.block_size()) as usize;
        let live = self.lives.spend(block);
        write_word_at(&mut self.bytes, place as usize, live, word);
        live.answer(at)
    }

    fn wipe(&mut self, block: u32) -> Result<(), Fault> {
        let at = self.extent().find_block(block)?;
        self.admit(at)?;
        let live = self.lives.spend(block as usize);
        let from = at as usize;
        let end = from + self.geometry.block_size() as usize;
        wipe_block(&mut self.bytes, from, end, live);
        live.answer(at)
    }
}
