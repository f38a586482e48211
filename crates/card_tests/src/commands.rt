// Device commands over raw cycles.
use cards::{Card, Series2Card, Series100Card, Width, Wiring};
use medium::{BlockLives, Fault, Geometry, Lanes};
use slot::Slot;
use std::alloc::Global;
use std::process::Abort;
use std::test::Fail;

// Two pairs with two blocks of four bytes each, all bytes 5AH, so many lives on each lane.
fn series2(heap: Global, lives: u32) -> Result<Series2Card, Fail> {
    let geometry = Geometry::new(4, 2, 2)?;
    let mut card = Series2Card::new(
        geometry,
        vec![in heap; 0x5au8; geometry.capacity() as usize]?,
    );
    for block in 0..4 {
        card.set_lives(block, Lanes::Both, lives)?;
    }
    Ok(card)
}

fn lives_are<W: Wiring + Drop>(
    rt: &impl Abort,
    card: &Card<W>,
    block: u32,
    even: u32,
    odd: u32,
) -> Result<(), Fail> {
    assert_eq!(rt; card.lives(block)?, BlockLives { even, odd });
    Ok(())
}

// The contents of a block, with the devices as after reset.
fn holds<W: Wiring>(rt: &impl Abort, card: &mut Card<W>, block: u32, first: u16, second: u16) {
    card.reset();
    let place = block.min(3) * 4;
    assert_eq!(rt; card.raw_read(Width::Word, place), first);
    assert_eq!(rt; card.raw_read(Width::Word, place + 2), second);
}

#[test]
fn one_lane_written(rt: HostRuntime) -> Result<(), Fail> {
    let mut card = series2(rt.alloc(), 3)?;
    card.raw_write(Width::OddByte, 6, 0x4000);
    card.raw_write(Width::OddByte, 6, 0x0fff);
    assert_eq!(rt; card.raw_read(Width::OddByte, 6), 0x80ff);
    holds(&rt, &mut card, 1, 0x5a5a, 0x0a5a);
    lives_are(&rt, &card, 1, 3, 2)?;
    lives_are(&rt, &card, 0, 3, 3)
}

#[test]
fn one_lane_wiped(rt: HostRuntime) -> Result<(), Fail> {
    let mut card = series2(rt.alloc(), 3)?;
    card.raw_write(Width::Byte, 8, 0x20);
    card.raw_write(Width::Byte, 10, 0xd0);
    assert_eq!(rt; card.raw_read(Width::Word, 8), 0x5a80);
    holds(&rt, &mut card, 2, 0x5aff, 0x5aff);
    holds(&rt, &mut card, 1, 0x5a5a, 0x5a5a);
    holds(&rt, &mut card, 3, 0x5a5a, 0x5a5a);
    lives_are(&rt, &card, 2, 2, 3)
}

#[test]
fn worn_lanes(rt: HostRuntime) -> Result<(), Fail> {
    let mut card = series2(rt.alloc(), 1)?;
    card.set_lives(0, Lanes::Even, 0)?;
    // a worn write leaves the old byte, and sets bit 4
    card.raw_write(Width::Word, 0, 0x4040);
    card.raw_write(Width::Word, 0, 0x0000);
    assert_eq!(rt; card.raw_read(Width::Word, 0), 0x8090);
    holds(&rt, &mut card, 0, 0x005a, 0x5a5a);
    lives_are(&rt, &card, 0, 0, 0)?;
    // a worn wipe leaves 00H, and sets bit 5
    card.set_lives(3, Lanes::Odd, 0)?;
    card.raw_write(Width::Word, 14, 0x2020);
    card.raw_write(Width::Word, 14, 0xd0d0);
    assert_eq!(rt; card.raw_read(Width::Word, 12), 0xa080);
    holds(&rt, &mut card, 3, 0x00ff, 0x00ff);
    lives_are(&rt, &card, 3, 0, 0)
}

#[test]
fn supply_and_errors(rt: HostRuntime) -> Result<(), Fail> {
    let mut card = series2(rt.alloc(), 3)?;
    card.set_supply(false);
    card.raw_write(Width::Word, 0, 0x4040);
    card.raw_write(Width::Word, 0, 0x0000);
    assert_eq!(rt; card.raw_read(Width::Word, 0), 0x8888);
    // bit 3 stands: no job begins until it is cleared
    card.set_supply(true);
    card.raw_write(Width::Word, 0, 0x4040);
    card.raw_write(Width::Word, 0, 0x0000);
    assert_eq!(rt; card.raw_read(Width::Word, 0), 0x8888);
    lives_are(&rt, &card, 0, 3, 3)?;
    card.raw_write(Width::Word, 0, 0x5050);
    assert_eq!(rt; card.raw_read(Width::Word, 0), 0x5a5a);
    // an armed wipe that is not confirmed
    card.raw_write(Width::Word, 0, 0x2020);
    card.raw_write(Width::Word, 0, 0xd012);
    assert_eq!(rt; card.raw_read(Width::Word, 0), 0x80b0);
    holds(&rt, &mut card, 0, 0xff5a, 0xff5a);
    Ok(())
}

// How many samples find a device busy before the first that finds none.
fn busy_samples<S: Slot>(slot: &mut S) -> usize {
    (0..2000).position(|_| slot.sample()).unwrap_or(2000)
}

#[test]
fn waits_fall_by_reads_and_samples(rt: HostRuntime) -> Result<(), Fail> {
    let mut card = series2(rt.alloc(), 9)?;
    card.set_waits(2, 5000);
    card.raw_write(Width::Word, 0, 0x4040);
    card.raw_write(Width::Word, 0, 0xffff);
    assert_eq!(rt; card.raw_read(Width::Byte, 0), 0xff00);
    assert_eq!(rt; card.sample(), false);
    // the even device has lost two, the odd one one
    assert_eq!(rt; card.raw_read(Width::Word, 0), 0x0080);
    assert_eq!(rt; card.sample(), true);
    // a wait over 1,000 counts as 1,000
    card.raw_write(Width::Byte, 1, 0x20);
    card.raw_write(Width::Byte, 1, 0xd0);
    assert_eq!(rt; busy_samples(&mut card), 1000);
    Ok(())
}

#[test]
fn a_busy_device_ignores_bytes(rt: HostRuntime) -> Result<(), Fail> {
    let geometry = Geometry::new(2, 1, 1)?;
    let mut card = Series100Card::new(geometry, vec![in rt.alloc(); 0xffu8; 2]?);
    card.set_lives(0, Lanes::Both, 2)?;
    card.set_waits(1, 1);
    card.raw_write(Width::Byte, 0, 0x40);
    card.raw_write(Width::Byte, 1, 0x0f);
    card.raw_write(Width::Byte, 0, 0xff);
    assert_eq!(rt; card.raw_read(Width::Byte, 0), 0xff00);
    assert_eq!(rt; card.raw_read(Width::Byte, 0), 0xff80);
    card.raw_write(Width::Byte, 0, 0xff);
    assert_eq!(rt; card.raw_read(Width::Word, 1), 0xff0f);
    Ok(())
}

#[test]
fn lives_of_a_block_that_is_not_there(rt: HostRuntime) -> Result<(), Fail> {
    let mut card = series2(rt.alloc(), 1)?;
    let none = Fault::OffCard { place: 16 };
    assert_eq!(rt; card.set_lives(4, Lanes::Both, 7), Err(none));
    assert_eq!(rt; card.lives(4), Err(none));
    let far = Fault::OffCard {
        place: 17_179_869_180,
    };
    assert_eq!(rt; card.set_lives(u32::MAX, Lanes::Even, 7), Err(far));
    Ok(())
}

// Cycles of the slot refuse what raw cycles do not.
#[test]
fn words_of_the_slot(rt: HostRuntime) -> Result<(), Fail> {
    let mut card = series2(rt.alloc(), 1)?;
    assert_eq!(rt; card.read_word(16), Err(Fault::OffCard { place: 16 }));
    assert_eq!(rt; card.read_word(15), Err(Fault::OffCard { place: 15 }));
    assert_eq!(rt; card.read_word(1), Err(Fault::OddPlace { place: 1 }));
    assert_eq!(rt;
        card.write_word(3, 0x9090),
        Err(Fault::OddPlace { place: 3 })
    );
    assert_eq!(rt; card.write_word(14, 0x9090), Ok(()));
    assert_eq!(rt; card.read_word(12), Ok(0x8989));
    assert_eq!(rt; card.read_word(14), Ok(0xa2a2));
    assert_eq!(rt; card.read_word(0), Ok(0x5a5a));
    Ok(())
}
