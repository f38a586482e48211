// The lanes of a row of bytes, written and wiped.
ghost use Rattle.std.specs.Prelude.{◌≡◌, ℕ, ◌+◌, ◌≤◌, length, slice_index};
ghost use Rattle.std.specs.List.{between};
ghost use Rattle.medium.specs.Jobs.{wiped, laid};
ghost use Rattle.memory.specs.Card.{pair_after, word_laid};

use medium::LiveLanes;

// Wipes the living lanes of a part that begins at an even place.
fn wipe_lanes(part: &mut [u8], live: LiveLanes)
    ensures { part.new ≡ wiped live.even live.odd part.old }
{
    if live.even && live.odd {
        part.fill(255);
        return;
    }
    for (i, byte) in part.iter_mut().enumerate() {
        let lives = if i % 2 == 0 { live.even } else { live.odd };
        if lives {
            *byte = 255;
        }
    }
}

// Writes a word to the living lanes of two bytes: the even byte is the low one.
fn write_lanes(pair: &mut [u8], live: LiveLanes, word: u16)
    requires { length pair.old ≡ 2 }
    ensures { pair.new ≡ pair_after live.even live.odd word (slice_index pair.old 0) (slice_index pair.old 1) }
{
    let [low, high] = word.to_le_bytes();
    if live.even {
        pair[0] &= low;
    }
    if live.odd {
        pair[1] &= high;
    }
}

// Wipes the living lanes of the block that lies from one place to before another.
pub(crate) fn wipe_block(bytes: &mut [u8], from: usize, end: usize, live: LiveLanes)
    requires { (from ≤ end) × (end ≤ length bytes.old) }
    ensures { bytes.new ≡ laid bytes.old from (wiped live.even live.odd (between from end bytes.old)) }
{
    wipe_lanes(&mut bytes[from..end], live);
}

// Writes a word to the living lanes at a place.
pub(crate) fn write_word_at(bytes: &mut [u8], from: usize, live: LiveLanes, word: u16)
    requires { from + 2 ≤ length bytes.old }
    ensures { bytes.new ≡ word_laid live.even live.odd word from bytes.old }
{
    write_lanes(&mut bytes[from..from + 2], live, word);
}
