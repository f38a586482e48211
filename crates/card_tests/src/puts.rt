// Puts through the driver on both simulated cards, which agree with the card in plain memory.
use cards::{Card, Series2Card, Series2Switches, Series100Card, Wiring};
use driver::Driver;
use medium::{Fault, Geometry, Lanes, Medium};
use memory::MemoryCard;
use slot::Slot;
use std::alloc::Global;
use std::process::Abort;
use std::test::Fail;
use writer::{WriterFault, clear, plan, put, take};

// Places and bytes, in the order of the puts: across blocks and pairs, with and without wipes, past the end.
const PUTS: [(u32, [u8; 5]); 8] = [
    (0, [0x12, 0x34, 0x56, 0x78, 0x9a]),
    (3, [0x10, 0x10, 0x00, 0x00, 0x00]),
    (6, [0xff, 0xff, 0xff, 0xff, 0xfe]),
    (11, [0x01, 0x02, 0x03, 0x04, 0x05]),
    (12, [0x01, 0x02, 0x03, 0x04, 0x05]),
    (11, [0x00, 0x00, 0x00, 0x00, 0x00]),
    (0, [0x12, 0x34, 0x56, 0x78, 0x9a]),
    (u32::MAX, [0; 5]),
];

// Two pairs with two blocks of four bytes each. Lives run out on the way in block 2, whose odd lane has two.
fn geometry() -> Result<Geometry, Fail> {
    Ok(Geometry::new(4, 2, 2)?)
}

fn blank(heap: Global) -> Result<Vec<u8>, Fail> {
    Ok(vec![in heap; 255u8; geometry()?.capacity() as usize]?)
}

// Lives by block and lanes, as they are given to each card.
const LIVES: [(u32, Lanes, u32); 5] = [
    (0, Lanes::Both, 40),
    (1, Lanes::Both, 40),
    (2, Lanes::Both, 40),
    (3, Lanes::Both, 40),
    (2, Lanes::Odd, 2),
];

fn memory(heap: Global) -> Result<MemoryCard, Fail> {
    let mut card = MemoryCard::new(geometry()?, blank(heap)?);
    for (block, lanes, lives) in LIVES {
        card.set_lives(block, lanes, lives)?;
    }
    Ok(card)
}

fn live<W: Wiring + Drop>(card: &mut Card<W>) -> Result<(), Fail> {
    for (block, lanes, lives) in LIVES {
        card.set_lives(block, lanes, lives)?;
    }
    Ok(())
}

// One put on two media: the plan, the answer, the buffer and the contents agree.
fn put_alike<A: Medium, B: Medium>(
    rt: &impl Abort,
    a: &mut A,
    b: &mut B,
    place: u32,
    bytes: &[u8],
) {
    let mut left = [0x77u8; 6];
    let mut right = [0x77u8; 6];
    assert_eq!(rt;
        plan(a, place, bytes, &mut left),
        plan(b, place, bytes, &mut right)
    );
    assert_eq!(rt; left, right);
    assert_eq!(rt;
        put(a, place, bytes, &mut left),
        put(b, place, bytes, &mut right)
    );
    assert_eq!(rt; left, right);
    alike(rt, a, b);
}

fn alike<A: Medium, B: Medium>(rt: &impl Abort, a: &mut A, b: &mut B) {
    let mut here = [0u8; 16];
    let mut there = [1u8; 16];
    assert_eq!(rt; take(a, 0, &mut here), Ok(()));
    assert_eq!(rt; take(b, 0, &mut there), Ok(()));
    assert_eq!(rt; here, there);
}

fn all_alike<A: Medium, B: Medium>(rt: &impl Abort, a: &mut A, b: &mut B) {
    for (place, bytes) in PUTS {
        put_alike(rt, a, b, place, &bytes);
    }
    let mut buffer = [0u8; 4];
    assert_eq!(rt; clear(a, 1, 1, &mut buffer), clear(b, 1, 1, &mut buffer));
    assert_eq!(rt; clear(a, 3, 2, &mut buffer), clear(b, 3, 2, &mut buffer));
    alike(rt, a, b);
}

fn lives_alike<W: Wiring + Drop>(rt: &impl Abort, memory: &MemoryCard, card: &Card<W>) {
    for block in 0..4 {
        assert_eq!(rt; memory.lives(block), card.lives(block));
    }
}

#[test]
fn series_2_as_in_memory(rt: HostRuntime) -> Result<(), Fail> {
    let mut plain = memory(rt.alloc())?;
    let mut card = Series2Card::new(geometry()?, blank(rt.alloc())?);
    live(&mut card)?;
    card.set_waits(3, 1);
    let mut driver = Driver::new(card);
    all_alike(&rt, &mut plain, &mut driver);
    lives_alike(&rt, &plain, &driver.into_slot());
    Ok(())
}

#[test]
fn series_100_as_in_memory(rt: HostRuntime) -> Result<(), Fail> {
    let mut plain = memory(rt.alloc())?;
    let mut card = Series100Card::new(geometry()?, blank(rt.alloc())?);
    live(&mut card)?;
    card.set_waits(0, 1000);
    let mut driver = Driver::new(card);
    all_alike(&rt, &mut plain, &mut driver);
    lives_alike(&rt, &plain, &driver.into_slot());
    Ok(())
}

#[test]
fn switches_as_in_memory(rt: HostRuntime) -> Result<(), Fail> {
    let mut plain = memory(rt.alloc())?;
    let mut card = Series2Card::new(geometry()?, blank(rt.alloc())?);
    live(&mut card)?;
    let mut driver = Driver::new(card);
    for (protect, supply_good) in [(true, true), (true, false), (false, false), (false, true)] {
        plain.set_locked(protect);
        plain.set_supply(supply_good);
        let mut switches = Series2Switches {
            protect,
            supply_good,
        };
        driver.turn_slot(&mut switches);
        put_alike(&rt, &mut plain, &mut driver, 7, &[0x0f, 0xf0]);
        put_alike(&rt, &mut plain, &mut driver, 7, &[0xff, 0xff]);
        assert_eq!(rt; plain.wipe(3), driver.wipe(3));
        assert_eq!(rt; plain.write_word(6, 0), driver.write_word(6, 0));
    }
    lives_alike(&rt, &plain, &driver.into_slot());
    Ok(())
}

// A worn wipe leaves 00H in the worn lane of a simulated card.
#[test]
fn worn_wipe_by_the_driver(rt: HostRuntime) -> Result<(), Fail> {
    let mut card = Series2Card::new(Geometry::new(4, 1, 1)?, vec![in rt.alloc(); 0x5au8; 4]?);
    card.set_lives(0, Lanes::Odd, 1)?;
    let mut driver = Driver::new(card);
    let mut buffer = [0u8; 4];
    let stopped = WriterFault {
        fault: Fault::Worn {
            place: 0,
            lanes: Lanes::Even,
        },
        wipes: 1,
        words: 0,
    };
    assert_eq!(rt; put(&mut driver, 0, &[0xff], &mut buffer), Err(stopped));
    let mut now = [0u8; 4];
    assert_eq!(rt; take(&mut driver, 0, &mut now), Ok(()));
    assert_eq!(rt; now, [0x00, 0xff, 0x00, 0xff]);
    Ok(())
}
