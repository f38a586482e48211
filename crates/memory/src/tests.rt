// The medium's calls on the smallest cards.
use crate::MemoryCard;
use medium::{BlockLives, Fault, Geometry, Lanes, Medium};
use std::alloc::Global;
use std::process::Abort;
use std::test::Fail;

// A card of one pair over these bytes, with so many lives on every lane.
fn card(heap: Global, block_size: u32, bytes: &[u8], lives: u32) -> Result<MemoryCard, Fail> {
    let geometry = Geometry::new(block_size, 2, 1)?;
    let mut card = MemoryCard::new(geometry, bytes.to_vec(heap)?);
    for block in 0..card.size().blocks {
        card.set_lives(block, Lanes::Both, lives)?;
    }
    Ok(card)
}

// Checks contents and lives of a card of eight bytes.
fn holds(
    rt: &impl Abort,
    card: &mut MemoryCard,
    bytes: [u8; 8],
    first: (u32, u32),
    second: (u32, u32),
) -> Result<(), Fail> {
    let mut now = [0; 8];
    card.read(0, &mut now)?;
    assert_eq!(rt; now, bytes);
    let (even, odd) = first;
    assert_eq!(rt; card.lives(0)?, BlockLives { even, odd });
    let (even, odd) = second;
    assert_eq!(rt; card.lives(1)?, BlockLives { even, odd });
    Ok(())
}

const OLD: [u8; 8] = [0xff, 0x0f, 0xf0, 0x55, 0xaa, 0xff, 0x00, 0x81];

#[test]
fn refused_words_change_nothing(rt: HostRuntime) -> Result<(), Fail> {
    let mut card = card(rt.alloc(), 4, &OLD, 5)?;
    // place, locked, supply good, and the fault
    let cases = [
        (8, false, true, Fault::OffCard { place: 8 }),
        (7, false, true, Fault::OffCard { place: 7 }),
        (9, true, false, Fault::OffCard { place: 9 }),
        (
            u32::MAX,
            true,
            true,
            Fault::OffCard {
                place: 4_294_967_295,
            },
        ),
        (
            u32::MAX - 1,
            false,
            true,
            Fault::OffCard {
                place: 4_294_967_294,
            },
        ),
        (1, false, true, Fault::OddPlace { place: 1 }),
        (5, true, false, Fault::OddPlace { place: 5 }),
        (4, true, false, Fault::Locked { place: 4 }),
        (2, true, true, Fault::Locked { place: 2 }),
        (6, false, false, Fault::LowSupply { place: 6 }),
    ];
    for (place, locked, good, fault) in cases {
        card.set_locked(locked);
        card.set_supply(good);
        assert_eq!(rt; card.write_word(place, 0), Err(fault));
        holds(&rt, &mut card, OLD, (5, 5), (5, 5))?;
    }
    Ok(())
}

#[test]
fn refused_wipes_change_nothing(rt: HostRuntime) -> Result<(), Fail> {
    let mut card = card(rt.alloc(), 4, &OLD, 5)?;
    let cases = [
        (2, false, true, Fault::OffCard { place: 8 }),
        (2, true, false, Fault::OffCard { place: 8 }),
        (
            u32::MAX,
            false,
            true,
            Fault::OffCard {
                place: 17_179_869_180,
            },
        ),
        (1, true, false, Fault::Locked { place: 4 }),
        (0, true, true, Fault::Locked { place: 0 }),
        (1, false, false, Fault::LowSupply { place: 4 }),
    ];
    for (block, locked, good, fault) in cases {
        card.set_locked(locked);
        card.set_supply(good);
        assert_eq!(rt; card.wipe(block), Err(fault));
        holds(&rt, &mut card, OLD, (5, 5), (5, 5))?;
    }
    Ok(())
}

#[test]
fn words_only_lose_ones(rt: HostRuntime) -> Result<(), Fail> {
    let mut card = card(rt.alloc(), 4, &OLD, 2)?;
    assert_eq!(rt; card.write_word(0, 0x3c5a), Ok(()));
    holds(
        &rt,
        &mut card,
        [0x5a, 0x0c, 0xf0, 0x55, 0xaa, 0xff, 0x00, 0x81],
        (1, 1),
        (2, 2),
    )?;
    assert_eq!(rt; card.write_word(6, u16::MAX), Ok(()));
    holds(
        &rt,
        &mut card,
        [0x5a, 0x0c, 0xf0, 0x55, 0xaa, 0xff, 0x00, 0x81],
        (1, 1),
        (1, 1),
    )
}

#[test]
fn worn_lanes_of_a_word(rt: HostRuntime) -> Result<(), Fail> {
    let mut card = card(rt.alloc(), 4, &OLD, 1)?;
    card.set_lives(0, Lanes::Odd, 0)?;
    let odd = Fault::Worn {
        place: 0,
        lanes: Lanes::Odd,
    };
    assert_eq!(rt; card.write_word(0, 0), Err(odd));
    holds(
        &rt,
        &mut card,
        [0x00, 0x0f, 0xf0, 0x55, 0xaa, 0xff, 0x00, 0x81],
        (0, 0),
        (1, 1),
    )?;
    let both = Fault::Worn {
        place: 2,
        lanes: Lanes::Both,
    };
    assert_eq!(rt; card.write_word(2, 0), Err(both));
    card.set_lives(1, Lanes::Even, 0)?;
    let even = Fault::Worn {
        place: 4,
        lanes: Lanes::Even,
    };
    assert_eq!(rt; card.write_word(4, 0x1234), Err(even));
    holds(
        &rt,
        &mut card,
        [0x00, 0x0f, 0xf0, 0x55, 0xaa, 0x12, 0x00, 0x81],
        (0, 0),
        (0, 0),
    )
}

#[test]
fn wipes_and_their_worn_lanes(rt: HostRuntime) -> Result<(), Fail> {
    let mut card = card(rt.alloc(), 4, &OLD, 3)?;
    assert_eq!(rt; card.wipe(1), Ok(()));
    holds(
        &rt,
        &mut card,
        [0xff, 0x0f, 0xf0, 0x55, 0xff, 0xff, 0xff, 0xff],
        (3, 3),
        (2, 2),
    )?;
    card.set_lives(0, Lanes::Even, 0)?;
    let even = Fault::Worn {
        place: 0,
        lanes: Lanes::Even,
    };
    assert_eq!(rt; card.wipe(0), Err(even));
    holds(
        &rt,
        &mut card,
        [0xff, 0xff, 0xf0, 0xff, 0xff, 0xff, 0xff, 0xff],
        (0, 2),
        (2, 2),
    )
}

#[test]
fn smallest_blocks(rt: HostRuntime) -> Result<(), Fail> {
    let mut card = card(rt.alloc(), 2, &[0x12, 0x34, 0x56, 0x78], 1)?;
    assert_eq!(rt; card.wipe(0), Ok(()));
    let both = Fault::Worn {
        place: 0,
        lanes: Lanes::Both,
    };
    assert_eq!(rt; card.wipe(0), Err(both));
    assert_eq!(rt; card.write_word(2, 0x0ff0), Ok(()));
    let odd = Fault::OddPlace { place: 1 };
    assert_eq!(rt; card.write_word(1, 0), Err(odd));
    let bytes = card.into_bytes();
    assert_eq!(rt; bytes.as_slice(), [0xff, 0xff, 0x50, 0x08].as_slice());
    Ok(())
}

#[test]
fn reads_at_the_ends(rt: HostRuntime) -> Result<(), Fail> {
    let mut card = card(rt.alloc(), 4, &OLD, 0)?;
    card.set_locked(true);
    card.set_supply(false);
    let mut two = [7, 7];
    assert_eq!(rt; card.read(6, &mut two), Ok(()));
    assert_eq!(rt; two, [0x00, 0x81]);
    let cases = [(7, 7), (8, 8), (u32::MAX, 4_294_967_295)];
    for (from, place) in cases {
        let mut kept = [7, 7];
        assert_eq!(rt; card.read(from, &mut kept), Err(Fault::OffCard { place }));
        assert_eq!(rt; kept, [7, 7]);
    }
    let mut none = [];
    assert_eq!(rt; card.read(8, &mut none), Ok(()));
    assert_eq!(rt; card.read(9, &mut none), Err(Fault::OffCard { place: 9 }));
    Ok(())
}

#[test]
fn bytes_of_another_length_make_no_blocks(rt: HostRuntime) -> Result<(), Fail> {
    let mut card = card(rt.alloc(), 4, &[0; 7], 9)?;
    assert_eq!(rt; card.size().blocks, 0);
    assert_eq!(rt; card.size().block_size, 4);
    let off = Fault::OffCard { place: 0 };
    assert_eq!(rt; card.wipe(0), Err(off));
    assert_eq!(rt; card.write_word(0, 0), Err(off));
    assert_eq!(rt; card.set_lives(0, Lanes::Both, 1), Err(off));
    assert_eq!(rt; card.lives(0), Err(off));
    assert_eq!(rt; card.into_bytes().len(), 0);
    Ok(())
}

#[test]
fn lives_are_set_lane_by_lane(rt: HostRuntime) -> Result<(), Fail> {
    let mut card = card(rt.alloc(), 4, &OLD, 0)?;
    assert_eq!(rt; card.set_lives(1, Lanes::Even, u32::MAX), Ok(()));
    assert_eq!(rt; card.set_lives(0, Lanes::Odd, 3), Ok(()));
    let past = Fault::OffCard {
        place: 17_179_869_180,
    };
    assert_eq!(rt; card.set_lives(u32::MAX, Lanes::Both, 1), Err(past));
    assert_eq!(rt; card.lives(u32::MAX), Err(past));
    holds(&rt, &mut card, OLD, (0, 3), (u32::MAX, 0))
}
