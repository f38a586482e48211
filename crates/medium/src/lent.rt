// A medium that is lent.

use crate::fault::Fault;
use crate::interface::Medium;
use crate::size::Size;

// What is lent is the medium itself, for as long as it is lent: so a layer, or a call, can stand on a borrowed one.
impl<M: Medium> Medium for &mut M {
    ghost meaning = { λ r. M.meaning r.now };

    ghost sound = { λ r. M.sound r.now };

    fn size(&self) -> Size {
        (**self).size()
    }

    fn read(&mut self, place: u32, buffer: &mut [u8]) -> Result<(), Fault> {
        (**self).read(place, buffer)
    }

    fn write_word(&mut self, place: u32, word: u16) -> Result<(), Fault> {
        (**self).write_word(place, word)
    }

    fn wipe(&mut self, block: u32) -> Result<(), Fault> {
        (**self).wipe(block)
    }
}
