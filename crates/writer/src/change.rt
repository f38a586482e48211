// A block as it stands, and as it is wanted.
ghost use Rattle.std.specs.Prelude.{◌≡◌, ◌+◌, ◌<◌, ◌≤◌, length, slice_index};
ghost use Rattle.writer.specs.Source.{end_of, laid_by};
ghost use Rattle.writer.specs.Blocks.{rises, word_of};

use crate::laying::Laying;

// A block, and what is to be laid over it.
#[derive(Clone, Copy)]
pub(crate) struct Change<'a> {
    pub(crate) block: &'a [u8],
    pub(crate) laying: Laying<'a>,
    ghost within: { end_of laying ≤ length block.now },
}

// The word at place i of a block, the even byte low.
pub(crate) fn word_in(block: &[u8], i: usize) -> u16
    requires { i + 1 < length block.now }
    ensures { result ≡ word_of block.now i }
{
    u16::from_le_bytes([block[i], block[i + 1]])
}

impl Change<'_> {
    // The byte that is wanted at place i.
    fn wanted_byte(self, i: usize) -> u8
        requires { i < length self.block.now }
        ensures { result ≡ slice_index (laid_by self.entry.block.now self.entry.laying) i }
    {
        let Laying { place, source } = self.laying;
        if i >= place && i - place < source.len() {
            source.at(i - place)
        } else {
            self.block[i]
        }
    }

    // The word that is wanted at place i.
    pub(crate) fn wanted_word(self, i: usize) -> u16
        requires { i + 1 < length self.block.now }
        ensures { result ≡ word_of (laid_by self.entry.block.now self.entry.laying) i }
    {
        let Laying { place, source } = self.laying;
        if i >= place && i + 1 < self.laying.end() {
            source.word_at(i - place)
        } else {
            u16::from_le_bytes([self.wanted_byte(i), self.wanted_byte(i + 1)])
        }
    }

    // Whether some bit of the block must rise: only under what is laid over it can one.
    pub(crate) fn must_wipe(self) -> bool
        ensures { result ≡ rises self.entry.block.now (laid_by self.entry.block.now self.entry.laying) 0 (length self.entry.block.now) }
    {
        let under = &self.block[self.laying.place..self.laying.end()];
        self.laying.source.rises_over(under)
    }
}
