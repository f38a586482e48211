// The call of the studio's program in C.
//
// The program holds what stands on a card and what is to stand there, and asks what a put would take: how many wipes
// and how many words. There is no card at hand, and no buffer. The header is include/velvetopal.h.
#![tactic(auto)]

ghost use Rattle.std.specs.Prelude.{◌≡◌, true, length};
ghost use Rattle.medium.specs.Limits.{BlockSize};
ghost use Rattle.medium.specs.declared.fault.Fault.TheVariants.{NoSuchGeometry, OffCard};
ghost use Rattle.writer.specs.Put.{of_one_block, block_counts};
ghost use Rattle.studio.specs.Answer.{Answered, Lengths, whole_blocks, number_of, blocks_counted};

#[cfg(test)]
mod tests;

use medium::{Fault, Geometry, MOST_BLOCKS};
use writer::{Counts, plan_block};

// Whether runs of these lengths are equally long and whole blocks of n bytes, no more of them than a card has.
fn are_whole_blocks(present: usize, wanted: usize, n: usize) -> bool
    ensures { result ≡ whole_blocks n present wanted }
{
    present == wanted && n > 0 && present % n == 0 && present / n <= MOST_BLOCKS
}

// The counts of one block.
fn plan_whole(present: &[u8], wanted: &[u8]) -> Counts
    requires { of_one_block present.now wanted.now ≡ true }
    ensures { result ≡ block_counts present.now wanted.now }
{
    plan_block(present, wanted).unwrap()
}

// The counts of all blocks.
fn plan_blocks(present: &[u8], wanted: &[u8], n: usize) -> Counts
    requires sized { BlockSize n }
    requires whole { Lengths n (length present.now) (length wanted.now) }
    ensures { result ≡ blocks_counted n present.now wanted.now }
{
    let mut counts = Counts { wipes: 0, words: 0 };
    for (old, new) in present.chunks_exact(n).zip(wanted.chunks_exact(n)) {
        let block = plan_whole(old, new);
        counts.wipes += block.wipes;
        counts.words += block.words;
    }
    counts
}

// The tests, of the size first and then of the runs, and the counts of all blocks.
fn plan(present: &[u8], wanted: &[u8], block_size: u32) -> Result<Counts, Fault>
    ensures no_such_size { (BlockSize block_size → ⊥) → result ≡ Err NoSuchGeometry }
    ensures off_card { BlockSize block_size → (Lengths block_size (length present.now) (length wanted.now) → ⊥) → result ≡ Err (OffCard 0) }
    ensures counted { BlockSize block_size → Lengths block_size (length present.now) (length wanted.now) → result ≡ Ok (blocks_counted block_size present.now wanted.now) }
{
    // A card of one block of this size exists only where blocks may have it.
    Geometry::new(block_size, 1, 1)?;
    let n = block_size as usize;
    if !are_whole_blocks(present.len(), wanted.len(), n) {
        return Err(Fault::OffCard { place: 0 });
    }
    Ok(plan_blocks(present, wanted, n))
}

// In one number, since a call from C answers no Result: the wipes times 2^32, and the words; or 2^63 and the fault's
// number.
fn packed(answer: Result<Counts, Fault>) -> u64
    ensures { result ≡ number_of answer }
{
    match answer {
        Ok(counts) => ((counts.wipes as u64) << 32) + counts.words as u64,
        Err(fault) => (1 << 63) + fault.number() as u64,
    }
}

// What a put of `wanted` over the contents `present`, in blocks of so many bytes, would begin: the wipes times 2^32,
// and the words. Or 2^63 and the number of a refusal: 7 where blocks cannot have so many bytes, else 1 where the runs
// are not equally long, not whole blocks, or more than 160 blocks.
#[unsafe(no_mangle)]
pub extern "C" fn velvetopal_plan(present: &[u8], wanted: &[u8], block_size: u32) -> u64
    ensures { Answered present.now wanted.now block_size result }
{
    packed(plan(present, wanted, block_size))
}
