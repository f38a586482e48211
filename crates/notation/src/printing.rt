// Bytes, printed.
ghost use Rattle.std.specs.Prelude.{OnOk};
ghost use Rattle.std.specs.Io.KnownBytes.{Appends};
ghost use Rattle.notation.specs.Hex.{hex_text};

use crate::pairs::pair_up;
use std::io;
use std::io::Write;

// How many bytes are turned into digits at a time.
const CHUNK: usize = 2048;

// Writes bytes as pairs of hexadecimal digits, with capital letters.
pub fn print_hex<W: Write>(out: &mut W, bytes: &[u8]) -> io::Result<()>
    ensures { OnOk result (Appends (W.contents out.old) (W.contents out.new) (hex_text bytes.now)) }
{
    let mut digits = [[0u8; 2]; CHUNK];
    for chunk in bytes.chunks(CHUNK) {
        let pairs = &mut digits[..chunk.len()];
        pair_up(chunk, pairs);
        out.write_all(pairs.as_flattened())?;
    }
    Ok(())
}
