// Digits and numbers of a script.
ghost use Rattle.std.specs.Prelude.{◌≡◌, ◌<◌, ◌≤◌};
ghost use Rattle.notation.specs.Digits.{Reads, digit_value, digits_value, kept_below, number_of};

use crate::why::Why;

// The value of a digit of the base; one above 9 is a letter, capital or small.
fn digit(base: u32, byte: u8) -> Option<u32>
    requires { (2 ≤ base) × (base ≤ 16) }
    ensures { result ≡ kept_below base (digit_value byte) }
{
    char::from(byte).to_digit(base)
}

// The number that digits of the base spell, if it is at most `most`. The library's `from_str_radix` takes a text, and a
// sign before its digits.
fn spelled(base: u32, digits: &[u8], most: u32) -> Result<u32, Why>
    requires { (2 ≤ base) × (base ≤ 16) }
    ensures { Reads (digits_value base digits.now) most result }
{
    if digits.is_empty() {
        return Err(Why::NoNumber);
    }
    let mut number: u64 = 0;
    for byte in digits {
        let Some(value) = digit(base, *byte) else {
            return Err(Why::NoNumber);
        };
        number = number * base as u64 + value as u64;
        if number > most as u64 {
            return Err(Why::TooLarge);
        }
    }
    Ok(number as u32)
}

// The number that a word stands for, if it is at most `most`: decimal digits, or hexadecimal ones after "0x".
pub fn number(word: &[u8], most: u32) -> Result<u32, Why>
    ensures { Reads (number_of word.now) most result }
{
    match word {
        [b'0', b'x', digits @ ..] => spelled(16, digits, most),
        _ => spelled(10, word, most),
    }
}
