// The words of a line.
ghost use Rattle.std.specs.Prelude.{◌≡◌, ◌<◌, ◌==◌, [], drop, length, not, position, slice_get, take, IfSome, MatchOption, MatchResult};
ghost use Rattle.std.specs.Option.{unwrap_or};
ghost use Rattle.notation.specs.declared.why.Why.TheVariants.{TooFewWords, TooManyWords};
ghost use Rattle.notation.specs.Words.{ReadsFirst, ReadsOptional, is_blank, none_left, words_of_line, words_left};

use crate::digits::number;
use crate::why::Why;

// What is left of a line.
#[derive(Clone, Copy)]
pub struct Words<'a> {
    rest: &'a [u8],
}

fn is_blank(byte: u8) -> bool
    ensures { result ≡ is_blank byte }
{
    byte == b' ' || byte == b'\t'
}

fn comment_start(text: &[u8]) -> Option<usize>
    ensures { result ≡ position (λ c. c == 35) text.now }
{
    text.iter().position(|byte| *byte == b'#')
}

fn word_start(text: &[u8]) -> Option<usize>
    ensures { result ≡ position (λ c. not (is_blank c)) text.now }
{
    text.iter().position(|byte| !is_blank(*byte))
}

fn word_end(text: &[u8]) -> Option<usize>
    ensures { result ≡ position is_blank text.now }
{
    text.iter().position(|byte| is_blank(*byte))
}

// A text before a place, and from there on; all is before where there is none.
fn cut(text: &[u8], place: Option<usize>) -> (&[u8], &[u8])
    requires { IfSome place (λ i. i < length text.now) }
    ensures front { result.0.now ≡ take (unwrap_or place (length text.now)) text.now }
    ensures back { result.1.now ≡ drop (unwrap_or place (length text.now)) text.now }
{
    text.split_at(place.unwrap_or(text.len()))
}

impl<'a> Words<'a> {
    // The words of a line, which has no line break. A carriage return at its end is a blank.
    pub fn new(line: &'a [u8]) -> Words<'a>
        ensures { words_left result ≡ words_of_line line.now }
    {
        let line = match line {
            [rest @ .., b'\r'] => rest,
            _ => line,
        };
        let (rest, _comment) = cut(line, comment_start(line));
        Words { rest }
    }

    // The next word, if there is one.
    pub fn optional(&mut self) -> Option<&'a [u8]>
        ensures word { MatchOption result (words_left self.old ≡ []) (λ w. slice_get (words_left self.old) 0 ≡ Some w.now) }
        ensures left { words_left self.new ≡ drop 1 (words_left self.old) }
    {
        let (_blanks, text) = cut(self.rest, word_start(self.rest));
        let (word, rest) = cut(text, word_end(text));
        self.rest = rest;
        if word.is_empty() { None } else { Some(word) }
    }

    // The next word.
    pub fn word(&mut self) -> Result<&'a [u8], Why>
        ensures word { MatchResult result (λ w. slice_get (words_left self.old) 0 ≡ Some w.now) (λ e. (words_left self.old ≡ []) × (e ≡ TooFewWords)) }
        ensures left { words_left self.new ≡ drop 1 (words_left self.old) }
    {
        self.optional().ok_or(Why::TooFewWords)
    }

    // The next word as a number of at most `most`.
    fn at_most(&mut self, most: u32) -> Result<u32, Why>
        ensures number { ReadsFirst (words_left self.old) most result }
        ensures left { words_left self.new ≡ drop 1 (words_left self.old) }
    {
        number(self.word()?, most)
    }

    // The next word as a number of 32 bits.
    pub fn number(&mut self) -> Result<u32, Why>
        ensures number { ReadsFirst (words_left self.old) u32.MAX result }
        ensures left { words_left self.new ≡ drop 1 (words_left self.old) }
    {
        self.at_most(u32::MAX)
    }

    // The next word as a number of 16 bits.
    pub fn value(&mut self) -> Result<u16, Why>
        ensures number { ReadsFirst (words_left self.old) u16.MAX result }
        ensures left { words_left self.new ≡ drop 1 (words_left self.old) }
    {
        Ok(self.at_most(u16::MAX as u32)? as u16)
    }

    // The next word, if there is one, as a number of 32 bits.
    pub fn optional_number(&mut self) -> Result<Option<u32>, Why>
        ensures number { ReadsOptional (words_left self.old) u32.MAX result }
        ensures left { words_left self.new ≡ drop 1 (words_left self.old) }
    {
        match self.optional() {
            Some(word) => Ok(Some(number(word, u32::MAX)?)),
            None => Ok(None),
        }
    }

    // That there is no word more.
    pub fn end(&mut self) -> Result<(), Why>
        ensures answer { result ≡ none_left (words_left self.old) }
        ensures left { words_left self.new ≡ drop 1 (words_left self.old) }
    {
        match self.optional() {
            Some(_) => Err(Why::TooManyWords),
            None => Ok(()),
        }
    }
}
