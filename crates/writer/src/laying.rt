// What a put lays over a card, and where.
ghost use Rattle.std.specs.Prelude.{◌≡◌, ◌+◌, ◌-◌, ◌^◌, ◌<◌, ◌≤◌, length};
ghost use Rattle.writer.specs.Source.{bytes_of, end_of, laid_by, piece};

use crate::source::Source;

// The bytes of a source, from a place on.
#[derive(Clone, Copy)]
pub(crate) struct Laying<'a> {
    pub(crate) place: usize,
    pub(crate) source: Source<'a>,
}

impl<'a> Laying<'a> {
    // The place past the last byte.
    pub(crate) fn end(self) -> usize
        requires { end_of self < 2 ^ 64 }
        ensures { result ≡ end_of self.entry }
    {
        self.place + self.source.len()
    }

    // What of it comes into the `size` bytes from `start` on, as a laying over these.
    pub(crate) fn piece(self, start: usize, size: usize) -> Laying<'a>
        requires fits { start + size < 2 ^ 64 }
        requires before { self.place < start + size }
        requires past { start < end_of self }
        ensures place { result.place ≡ self.entry.place - start }
        ensures bytes { bytes_of result.source ≡ piece (bytes_of self.entry.source) self.entry.place start size }
    {
        let from = start.saturating_sub(self.place);
        let to = (start + size - self.place).min(self.source.len());
        Laying {
            place: self.place.saturating_sub(start),
            source: self.source.cut(from, to),
        }
    }

    // Lays it over the block.
    pub(crate) fn lay_over(self, block: &mut [u8])
        requires { end_of self ≤ length block.old }
        ensures { block.new ≡ laid_by block.old self.entry }
    {
        self.source.fill(&mut block[self.place..self.end()]);
    }
}
