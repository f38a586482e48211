// The rows of the table, tried on memory cards and on a device. Pairs are not tried here: that takes a card with a slot.
use crate::{CardState, PutCase, worked_cases};
use devices::Device;
use medium::{BlockLives, Geometry, Lanes, Medium};
use memory::MemoryCard;
use std::alloc::Global;
use std::process::Abort;
use std::test::Fail;
use writer::put;

// A memory card in this state.
fn card_in(heap: Global, state: CardState) -> Result<MemoryCard, Fail> {
    let geometry = Geometry::new(4, 2, 1)?;
    let bytes = Vec::from_slice(heap, &state.bytes)?;
    let mut card = MemoryCard::new(geometry, bytes);
    for ((block, even), odd) in (0..).zip(state.even).zip(state.odd) {
        card.set_lives(block, Lanes::Even, even)?;
        card.set_lives(block, Lanes::Odd, odd)?;
    }
    card.set_locked(state.locked);
    Ok(card)
}

// The card has the lives of this state.
fn has_lives(rt: &impl Abort, card: &MemoryCard, state: CardState) -> Result<(), Fail> {
    for ((block, even), odd) in (0..).zip(state.even).zip(state.odd) {
        assert_eq!(rt; card.lives(block)?, BlockLives { even, odd });
    }
    Ok(())
}

fn try_put(rt: &impl Abort, heap: Global, row: PutCase) -> Result<(), Fail> {
    let mut card = card_in(heap, row.before)?;
    let mut buffer = [0; 4];
    assert!(rt; row.untold <= 8);
    let answer = put(&mut card, row.place, row.bytes, &mut buffer);
    assert_eq!(rt; answer, row.answer);
    has_lives(rt, &card, row.after)?;
    let mut contents = [0; 8];
    card.read(0, &mut contents)?;
    assert_eq!(rt; &contents[row.untold..], &row.after.bytes[row.untold..]);
    Ok(())
}

#[test]
fn puts_of_the_table(rt: HostRuntime) -> Result<(), Fail> {
    let cases = worked_cases();
    for row in cases.on_one_card {
        try_put(&rt, rt.alloc(), row)?;
    }
    for row in cases.with_worn_lanes {
        try_put(&rt, rt.alloc(), row)?;
    }
    Ok(())
}

#[test]
fn the_device_of_the_table(rt: HostRuntime) {
    let row = worked_cases().device;
    let mut device = Device::new();
    // 20H arms a wipe
    let _ = device.take(0x20, true);
    let _ = device.take(row.byte, true);
    assert_eq!(rt; device.show(0, 0), row.shown);
}
