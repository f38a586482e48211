// Media of two kinds as media of one.
ghost use Rattle.histories.specs.declared.either.Either.TheVariants.{First, Second};
ghost use Rattle.std.proofs.Common.{rules};

use medium::{Fault, Medium, Size};

// A medium of one kind or of another, so that both stand in one list.
// An enum with a match in each call, and no `Box<dyn Medium>`: to put a medium into the list cannot fail.
#[derive(Drop, Clone, PartialEq, Eq, Debug)]
pub enum Either<A, B> {
    First(A),
    Second(B),
}

impl<P: Medium, Q: Medium> Medium for Either<P, Q> {
    ghost meaning = { λ e. elim e [ First a ↦ P.meaning a | Second b ↦ Q.meaning b ] };

    ghost sound = { Prim.search rules };

    fn size(&self) -> Size {
        match self {
            Either::First(a) => a.size(),
            Either::Second(b) => b.size(),
        }
    }

    fn read(&mut self, place: u32, buffer: &mut [u8]) -> Result<(), Fault> {
        match self {
            Either::First(a) => a.read(place, buffer),
            Either::Second(b) => b.read(place, buffer),
        }
    }

    fn write_word(&mut self, place: u32, word: u16) -> Result<(), Fault> {
        match self {
            Either::First(a) => a.write_word(place, word),
            Either::Second(b) => b.write_word(place, word),
        }
    }

    fn wipe(&mut self, block: u32) -> Result<(), Fault> {
        match self {
            Either::First(a) => a.wipe(block),
            Either::Second(b) => b.wipe(block),
        }
    }
}
