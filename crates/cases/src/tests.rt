// The worked cases of the writer.
use crate::answers::{counts, failed};
use crate::small_card;
use medium::{BlockLives, Fault, Lanes, Medium};
use memory::MemoryCard;
use std::alloc::Global;
use std::process::Abort;
use std::test::Fail;
use writer::{clear, plan, put, take};

// The small card after the first three cases.
fn after_three(rt: &impl Abort, heap: Global) -> Result<MemoryCard, Fail> {
    let mut card = small_card(heap)?;
    let mut buffer = [0; 4];
    assert_eq!(rt; put(&mut card, 0, &[0x12, 0x34], &mut buffer), counts(0, 1));
    assert_eq!(rt; put(&mut card, 1, &[0x30], &mut buffer), counts(0, 1));
    assert_eq!(rt; put(&mut card, 1, &[0x31], &mut buffer), counts(1, 1));
    assert_eq!(rt; buffer, [0x12, 0x31, 0xff, 0xff]);
    Ok(card)
}

fn holds(rt: &impl Abort, card: &mut MemoryCard, bytes: [u8; 8]) {
    let mut now = [0; 8];
    assert_eq!(rt; take(card, 0, &mut now), Ok(()));
    assert_eq!(rt; now, bytes);
}

// Cases 1 to 6.
#[test]
fn on_one_card(rt: HostRuntime) -> Result<(), Fail> {
    let mut card = after_three(&rt, rt.alloc())?;
    let mut buffer = [7; 6];
    card.set_locked(true);
    assert_eq!(rt; put(&mut card, 1, &[0x31], &mut buffer), counts(0, 0));
    assert_eq!(rt; buffer, [0x12, 0x31, 0xff, 0xff, 7, 7]);
    card.set_locked(false);
    assert_eq!(rt; put(&mut card, 3, &[0, 0], &mut buffer), counts(0, 2));
    assert_eq!(rt; buffer, [0x00, 0xff, 0xff, 0xff, 7, 7]);
    assert_eq!(rt; put(&mut card, 8, &[], &mut buffer), counts(0, 0));
    let off = Fault::OffCard { place: 8 };
    assert_eq!(rt; put(&mut card, 8, &[0], &mut buffer), failed(off, 0, 0));
    assert_eq!(rt; buffer, [0x00, 0xff, 0xff, 0xff, 7, 7]);
    holds(
        &rt,
        &mut card,
        [0x12, 0x31, 0xff, 0x00, 0x00, 0xff, 0xff, 0xff],
    );
    Ok(())
}

// Case 7.
#[test]
fn with_the_odd_lane_worn(rt: HostRuntime) -> Result<(), Fail> {
    let mut card = after_three(&rt, rt.alloc())?;
    assert_eq!(rt; card.set_lives(0, Lanes::Odd, 0), Ok(()));
    let before = card.lives(0)?;
    let mut buffer = [0; 4];
    let worn = Fault::Worn {
        place: 0,
        lanes: Lanes::Odd,
    };
    assert_eq!(rt; put(&mut card, 0, &[0x00], &mut buffer), failed(worn, 0, 1));
    assert!(rt; before.even > 0);
    let even = before.even - 1;
    assert_eq!(rt; card.lives(0)?, BlockLives { even, odd: 0 });
    assert_eq!(rt; buffer, [0x00, 0x31, 0xff, 0xff]);
    Ok(())
}

// Case 8, and a clear that meets the same lanes.
#[test]
fn with_both_lanes_worn(rt: HostRuntime) -> Result<(), Fail> {
    let mut card = after_three(&rt, rt.alloc())?;
    assert_eq!(rt; card.set_lives(0, Lanes::Both, 0), Ok(()));
    let mut buffer = [0; 4];
    let worn = Fault::Worn {
        place: 0,
        lanes: Lanes::Both,
    };
    assert_eq!(rt; put(&mut card, 1, &[0x32], &mut buffer), failed(worn, 1, 0));
    assert_eq!(rt; clear(&mut card, 0, 2, &mut buffer), failed(worn, 1, 0));
    holds(
        &rt,
        &mut card,
        [0x12, 0x31, 0xff, 0xff, 0xff, 0xff, 0xff, 0xff],
    );
    Ok(())
}

// Plan, clear, a short buffer and low supply.
#[test]
fn without_a_fault_and_with_one(rt: HostRuntime) -> Result<(), Fail> {
    let mut card = after_three(&rt, rt.alloc())?;
    let mut buffer = [0; 4];
    assert_eq!(rt;
        plan(&mut card, 1, &[0x32, 0, 0, 0], &mut buffer),
        counts(1, 3)
    );
    holds(
        &rt,
        &mut card,
        [0x12, 0x31, 0xff, 0xff, 0xff, 0xff, 0xff, 0xff],
    );
    let short = Fault::ShortBuffer { place: 1 };
    assert_eq!(rt;
        put(&mut card, 1, &[0x32], &mut [0; 3]),
        failed(short, 0, 0)
    );
    card.set_supply(false);
    let low = Fault::LowSupply { place: 0 };
    assert_eq!(rt; clear(&mut card, 0, 2, &mut buffer), failed(low, 0, 0));
    card.set_supply(true);
    assert_eq!(rt; clear(&mut card, 0, 2, &mut buffer), counts(1, 0));
    let past = Fault::OffCard { place: 4 };
    assert_eq!(rt; clear(&mut card, 1, 2, &mut buffer), failed(past, 0, 0));
    assert_eq!(rt;
        clear(&mut card, u32::MAX, u32::MAX, &mut buffer),
        failed(
            Fault::OffCard {
                place: 17_179_869_180,
            },
            0,
            0,
        )
    );
    holds(&rt, &mut card, [0xff; 8]);
    Ok(())
}
