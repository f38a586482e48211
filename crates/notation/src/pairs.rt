// Bytes as pairs of hexadecimal digits, and bytes of a pattern.
ghost use Rattle.std.specs.Prelude.{◌≡◌, ◌⊎◌, ℕ, ◌<◌, List, flat_map, length, map, IfOk, IfErr, IsOkAnd, vec_len};
ghost use Rattle.notation.specs.declared.why.Why.TheVariants.{NoHex, OutOfMemory};
ghost use Rattle.notation.specs.Hex.{Pairs, Repeats, Written, capital, digits_of};

use crate::why::Why;
use std::alloc::{AllocError, Global};

// The bytes that pairs of digits stand for. Where it refuses for want of memory, it says nothing of the digits.
pub fn unpaired(heap: Global, digits: &[u8]) -> Result<Vec<u8>, Why>
    ensures made { IfOk result (λ v. Pairs digits.now v.items) }
    ensures refused { IfErr result (λ w. (w ≡ OutOfMemory) ⊎ ((w ≡ NoHex) × ((bytes : List ℕ) → Pairs digits.now bytes → ⊥))) }
{
    Ok(hex::decode(heap, digits)?)
}

// The digit, a capital letter above 9, of a value below sixteen: what the library makes without a heap are small letters.
fn digit_of(value: u8) -> u8
    requires { value < 16 }
    ensures { result ≡ capital value }
{
    if value < 10 {
        b'0' + value
    } else {
        b'A' + (value - 10)
    }
}

// Makes the two digits of each byte.
pub(crate) fn pair_up(bytes: &[u8], pairs: &mut [[u8; 2]])
    requires { length bytes.now ≡ length pairs.old }
    ensures pairs { pairs.new ≡ map digits_of bytes.now }
    ensures text { Written bytes.now (flat_map (λ p. p) pairs.new) (length bytes.now) }
{
    // By place: of pairs that a `zip` with `iter_mut` wrote, a proof knows none afterwards.
    for (i, byte) in bytes.iter().enumerate() {
        pairs[i] = [digit_of(*byte / 16), digit_of(*byte % 16)];
    }
}

// Bytes of a pattern, repeated and cut off so that they are `count`; none of an empty one.
pub fn repeated(heap: Global, pattern: &[u8], count: usize) -> Result<Vec<u8>, AllocError>
    ensures made { 0 < length pattern.now → IfOk result (λ v. (vec_len v ≡ count) × Repeats pattern.now count v.items) }
    ensures none { length pattern.now ≡ 0 → IsOkAnd result (λ v. vec_len v ≡ 0) }
{
    if pattern.is_empty() {
        return Ok(Vec::new(heap));
    }
    if pattern.len() == 1 {
        return vec![in heap; pattern[0]; count];
    }
    // So much room and no more: a pattern may be far longer than what is asked of it. Of a vector that was extended no
    // clause bounds the room, so a test holds this.
    let mut bytes = Vec::with_capacity(heap, count)?;
    for copies in 0..count / pattern.len() {
        bytes.extend_from_slice(pattern)?;
    }
    bytes.extend_from_slice(&pattern[..count % pattern.len()])?;
    Ok(bytes)
}
