// A medium without blocks.
ghost use Rattle.writer.specs.Empty.{no_blocks};
ghost use Rattle.std.specs.Prelude.{refl};
ghost use Rattle.std.proofs.Common.{arith};

use medium::{Fault, Medium, Size};

// What a pass is handed that only counts: it calls no medium. A pass is written over a medium, so that what it did to the
// medium can be said; with this one the plan of a block without a medium needs no second text of the pass.
#[derive(Drop)]
pub(crate) struct EmptyMedium {}

impl Medium for EmptyMedium {
    ghost meaning = { λ _. no_blocks };

    ghost sound = { λ m.
        record {
          power = (1, (omega arith, omega arith, refl));
          few = omega arith;
          filled = refl;
          byte = λ k. omega arith;
          lock_row = refl;
          even_row = refl;
          odd_row = refl;
          even_fit = λ k. omega arith;
          odd_fit = λ k. omega arith;
        } };

    fn size(&self) -> Size {
        Size {
            block_size: 2,
            blocks: 0,
        }
    }

    fn read(&mut self, place: u32, buffer: &mut [u8]) -> Result<(), Fault> {
        if place > 0 || buffer.len() > 0 {
            return Err(Fault::OffCard {
                place: place as u64,
            });
        }
        Ok(())
    }

    fn write_word(&mut self, place: u32, _word: u16) -> Result<(), Fault> {
        Err(Fault::OffCard {
            place: place as u64,
        })
    }

    fn wipe(&mut self, block: u32) -> Result<(), Fault> {
        Err(Fault::OffCard {
            place: block as u64 * 2,
        })
    }
}
