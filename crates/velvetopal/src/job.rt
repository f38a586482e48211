// The job: two designs on a card, one of them patched, a block cleared, all read back.
use crate::designs::{LEAF, Patch, REDRAWN, ROSE};
use crate::hand::{LockedAt, NEVER};
use crate::record::{lives_left, show_calls, show_totals};
use anyhow::anyhow;
use histories::{Call, Request, perform};
use medium::{Geometry, Lanes, Medium};
use memory::MemoryCard;
use std::alloc::Global;

// Bytes to a block, blocks to a device pair, and pairs of a card: a constant, which a tested `Geometry` cannot be.
#[derive(Clone, Copy)]
pub(crate) struct Shape {
    pub(crate) block_size: u32,
    pub(crate) blocks_per_pair: u32,
    pub(crate) pairs: u32,
}

const SHAPE: Shape = Shape {
    block_size: 16,
    blocks_per_pair: 4,
    pairs: 1,
};

// Lives of each lane of each block at first.
const LIVES: u32 = 100;

impl Shape {
    // A blank card with so many lives on every lane.
    pub(crate) fn blank_card(self, heap: Global, lives: u32) -> anyhow::Result<MemoryCard> {
        let geometry = Geometry::new(self.block_size, self.blocks_per_pair, self.pairs).map_err(
            |_| anyhow!("the card's geometry is outside the limits"),
        )?;
        let bytes = vec![in heap; 255; geometry.capacity() as usize]?;
        let mut card = MemoryCard::new(geometry, bytes);
        for block in 0..card.size().blocks {
            let _ = card.set_lives(block, Lanes::Both, lives);
        }
        Ok(card)
    }
}

// A call of the one card of a list, with a buffer of so many bytes.
fn call(heap: Global, request: Request, room: usize) -> anyhow::Result<Call> {
    let buffer = vec![in heap; 0; room]?;
    Ok(Call::new(0, request, buffer))
}

// A put of bytes, with a buffer of one block.
pub(crate) fn put(heap: Global, place: u32, bytes: &[u8], block: usize) -> anyhow::Result<Call> {
    let bytes = bytes.to_vec(heap)?;
    call(heap, Request::Put { place, bytes }, block)
}

// Both designs, the leaf across a border of blocks; then the rose's patch, refused once by the lock.
fn filling(heap: Global) -> anyhow::Result<Vec<Call>> {
    let Patch { place, steps } = REDRAWN;
    Ok(vec![in heap;
        call(
            heap,
            Request::Plan {
                place: 0,
                bytes: ROSE.to_vec(heap)?
            },
            16
        )?,
        put(heap, 0, &ROSE, 16)?,
        put(heap, 40, &LEAF, 16)?,
        call(heap, Request::Take { place: 0 }, ROSE.len())?,
        call(
            heap,
            Request::Plan {
                place,
                bytes: steps.to_vec(heap)?
            },
            16
        )?,
        put(heap, place, &steps, 16)?,
        put(heap, place, &steps, 16)?,
        call(heap, Request::Take { place: 0 }, ROSE.len())?,
    ]?)
}

// The leaf's end is cleared with its block, and a lane is worn.
fn clearing(heap: Global) -> anyhow::Result<Vec<Call>> {
    Ok(vec![in heap;
        call(heap, Request::Clear { first: 3, count: 1 }, 16)?,
        put(heap, 40, &[0, 0, 0], 16)?,
        put(heap, 60, &ROSE, 16)?,
        call(heap, Request::Take { place: 32 }, 32)?,
    ]?)
}

// Carries out a list on the card and prints its record. The card is locked before one call of it, and open before
// every other.
fn record(
    rt: &HostRuntime,
    media: &mut [MemoryCard; 1],
    mut calls: Vec<Call>,
    mut hand: LockedAt,
) -> anyhow::Result<()> {
    let before = lives_left(&media[0]);
    perform(media, &mut calls, &mut hand);
    show_calls(rt, &calls)?;
    let lost = before.saturating_sub(lives_left(&media[0]));
    show_totals(rt, &calls, lost)
}

pub(crate) fn fill_and_patch(rt: &HostRuntime) -> anyhow::Result<()> {
    let heap = rt.alloc();
    let blocks = SHAPE.blocks_per_pair;
    let block_size = SHAPE.block_size;
    let mut media = [SHAPE.blank_card(heap, LIVES)?];
    println!(rt;
        "a blank memory card: {blocks} blocks of {block_size} bytes, {LIVES} lives to a lane"
    )?;
    record(rt, &mut media, filling(heap)?, LockedAt { call: 5 })?;
    let _ = media[0].set_lives(2, Lanes::Odd, 0);
    println!(rt; "the odd lane of block 2 has no lives left")?;
    record(rt, &mut media, clearing(heap)?, NEVER)
}
