// The worked cases, on memory cards of two blocks of four bytes.
use crate::hand::{LockedAt, NEVER};
use crate::job::{Shape, put};
use crate::record::Told;
use histories::{Call, perform};
use medium::Lanes;
use std::alloc::Global;

// The small card.
const SMALL: Shape = Shape {
    block_size: 4,
    blocks_per_pair: 2,
    pairs: 1,
};

// The numbers of the cases that the calls of the first list are. They stand beside the calls, since a list of calls is
// what is carried out.
const NUMBERS: [u8; 7] = [1, 2, 3, 4, 5, 6, 6];

fn first_three(heap: Global) -> anyhow::Result<Vec<Call>> {
    Ok(vec![in heap;
        put(heap, 0, &[0x12, 0x34], 4)?,
        put(heap, 1, &[0x30], 4)?,
        put(heap, 1, &[0x31], 4)?,
    ]?)
}

// Cases 1 to 6, on one card, locked before the fourth call.
pub(crate) fn one_to_six(rt: &HostRuntime) -> anyhow::Result<()> {
    let heap = rt.alloc();
    let mut media = [SMALL.blank_card(heap, 100)?];
    let mut calls = first_three(heap)?;
    calls.push(put(heap, 1, &[0x31], 4)?)?;
    calls.push(put(heap, 3, &[0, 0], 4)?)?;
    calls.push(put(heap, 8, &[], 4)?)?;
    calls.push(put(heap, 8, &[0], 4)?)?;
    perform(&mut media, &mut calls, &mut LockedAt { call: 3 });
    for (number, call) in NUMBERS.iter().zip(calls.iter()) {
        println!(rt; "case {number}: {}", Told(call))?;
    }
    Ok(())
}

// A case by its number: the first three cases, and then a put of one byte more, with some lanes of block 0 worn.
#[derive(Clone, Copy)]
pub(crate) struct WornCase {
    // as the pages count the cases, and as it is printed
    number: u8,
    lanes: Lanes,
    place: u32,
    byte: u8,
}

// The odd lane is worn.
pub(crate) const SEVEN: WornCase = WornCase {
    number: 7,
    lanes: Lanes::Odd,
    place: 0,
    byte: 0x00,
};

// A wipe is needed, and both lanes are worn.
pub(crate) const EIGHT: WornCase = WornCase {
    number: 8,
    lanes: Lanes::Both,
    place: 1,
    byte: 0x32,
};

impl WornCase {
    // Carries the case out, and tells its last call.
    pub(crate) fn show(self, rt: &HostRuntime) -> anyhow::Result<()> {
        let heap = rt.alloc();
        let mut media = [SMALL.blank_card(heap, 100)?];
        let mut calls = first_three(heap)?;
        let mut hand = NEVER;
        perform(&mut media, &mut calls, &mut hand);
        let _ = media[0].set_lives(0, self.lanes, 0);
        let mut last = [put(heap, self.place, &[self.byte], 4)?];
        perform(&mut media, &mut last, &mut hand);
        let number = self.number;
        println!(rt; "case {number}: {}", Told(&last[0]))?;
        Ok(())
    }
}
