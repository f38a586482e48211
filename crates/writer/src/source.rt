// Bytes that a put lays over a card.
ghost use Rattle.std.specs.Prelude.{◌≡◌, ◌+◌, ◌<◌, ◌≤◌, ◌==◌, not, bit_and, length, replicate, slice_index, slice_range};
ghost use Rattle.std.specs.List.{list_any, zip};
ghost use Rattle.writer.specs.Blocks.{rises, word_of};
ghost use Rattle.writer.specs.Source.{bytes_of};

// Bytes, or one byte so many times.
#[derive(Clone, Copy)]
pub(crate) enum Source<'a> {
    Bytes(&'a [u8]),
    Fill { byte: u8, length: usize },
}

// Whether some bit must rise from 0 to 1.
fn must_rise(standing: u8, wanted: u8) -> bool
    ensures { result ≡ not (bit_and standing wanted == wanted) }
{
    standing & wanted != wanted
}

// Whether some bit of these bytes must rise for as many others.
fn rises_in(standing: &[u8], wanted: &[u8]) -> bool
    requires { length wanted.now ≡ length standing.now }
    ensures { result ≡ list_any (λ p. not (bit_and p.0 p.1 == p.1)) (zip standing.now wanted.now) }
{
    standing
        .iter()
        .zip(wanted)
        .any(|(standing, wanted)| must_rise(*standing, *wanted))
}

// Whether some bit of these bytes must rise for one that is wanted at each place.
fn rises_to(standing: &[u8], wanted: u8) -> bool
    ensures { result ≡ list_any (λ x. not (bit_and x wanted == wanted)) standing.now }
{
    standing.iter().any(|standing| must_rise(*standing, wanted))
}

impl<'a> Source<'a> {
    // FFH so many times.
    pub(crate) fn blank(count: usize) -> Source<'a>
        ensures { bytes_of result ≡ replicate count 255 }
    {
        Source::Fill {
            byte: 255,
            length: count,
        }
    }

    pub(crate) fn len(self) -> usize
        ensures { result ≡ length (bytes_of self.entry) }
    {
        match self {
            Source::Bytes(bytes) => bytes.len(),
            Source::Fill { length, .. } => length,
        }
    }

    pub(crate) fn at(self, i: usize) -> u8
        requires { i < length (bytes_of self) }
        ensures { result ≡ slice_index (bytes_of self.entry) i }
    {
        match self {
            Source::Bytes(bytes) => bytes[i],
            Source::Fill { byte, .. } => byte,
        }
    }

    // The word at place i, the even byte low.
    pub(crate) fn word_at(self, i: usize) -> u16
        requires { i + 1 < length (bytes_of self) }
        ensures { result ≡ word_of (bytes_of self.entry) i }
    {
        u16::from_le_bytes([self.at(i), self.at(i + 1)])
    }

    // What lies from one place to before another.
    pub(crate) fn cut(self, from: usize, to: usize) -> Source<'a>
        requires { (from ≤ to) × (to ≤ length (bytes_of self)) }
        ensures { bytes_of result ≡ slice_range (bytes_of self.entry) from to }
    {
        match self {
            Source::Bytes(bytes) => Source::Bytes(&bytes[from..to]),
            Source::Fill { byte, .. } => Source::Fill {
                byte,
                length: to - from,
            },
        }
    }

    // Whether some bit of as many bytes must rise for it.
    pub(crate) fn rises_over(self, under: &[u8]) -> bool
        requires { length (bytes_of self) ≡ length under.now }
        ensures { result ≡ rises under.now (bytes_of self.entry) 0 (length under.now) }
    {
        match self {
            Source::Bytes(bytes) => rises_in(under, bytes),
            Source::Fill { byte, .. } => rises_to(under, byte),
        }
    }

    // Fills as many bytes with it.
    pub(crate) fn fill(self, under: &mut [u8])
        requires { length (bytes_of self) ≡ length under.old }
        ensures { under.new ≡ bytes_of self.entry }
    {
        match self {
            Source::Bytes(bytes) => under.copy_from_slice(bytes),
            Source::Fill { byte, .. } => under.fill(byte),
        }
    }
}
