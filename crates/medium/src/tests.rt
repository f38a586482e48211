// Geometries at their limits, and faults as the table and a person know them.
use crate::{Fault, Geometry, Lanes};
use std::test::Fail;

#[test]
fn geometries_within_the_limits(rt: HostRuntime) -> Result<(), Fail> {
    // block size, blocks to a pair, pairs, blocks and capacity
    let cases = [
        (2, 1, 1, 1, 2),
        (4, 2, 1, 2, 8),
        (131_072, 16, 1, 16, 2_097_152),
        (131_072, 16, 10, 160, 20_971_520),
    ];
    for (size, per_pair, pairs, blocks, capacity) in cases {
        let geometry = Geometry::new(size, per_pair, pairs)?;
        assert_eq!(rt; geometry.block_size(), size);
        assert_eq!(rt; geometry.blocks_per_pair(), per_pair);
        assert_eq!(rt; geometry.pairs(), pairs);
        assert_eq!(rt; geometry.blocks(), blocks);
        assert_eq!(rt; geometry.capacity(), capacity);
    }
    Ok(())
}

#[test]
fn geometries_outside_the_limits(rt: HostRuntime) -> Result<(), Fail> {
    let cases = [
        (0, 1, 1),
        (1, 1, 1),
        (3, 1, 1),
        (131_073, 1, 1),
        (262_144, 1, 1),
        (u32::MAX, 1, 1),
        (4, 0, 1),
        (4, 17, 1),
        (4, u32::MAX, 1),
        (4, 1, 0),
        (4, 1, 11),
        (4, 1, u32::MAX),
    ];
    for (size, per_pair, pairs) in cases {
        match Geometry::new(size, per_pair, pairs) {
            Ok(_) => return Err(Fail::new("made")),
            Err(fault) => assert_eq!(rt; fault, Fault::NoSuchGeometry),
        }
    }
    Ok(())
}

#[test]
fn faults_by_number_place_and_text(rt: HostRuntime) -> Result<(), Fail> {
    let worn = Fault::Worn {
        place: 131_072,
        lanes: Lanes::Odd,
    };
    let cases = [
        (
            Fault::OffCard { place: u64::MAX },
            1,
            u64::MAX,
            "fault 1: off the card, place 18446744073709551615",
        ),
        (
            Fault::OddPlace { place: 5 },
            2,
            5,
            "fault 2: odd place, place 5",
        ),
        (
            Fault::ShortBuffer { place: 6 },
            3,
            6,
            "fault 3: short buffer, place 6",
        ),
        (Fault::Locked { place: 4 }, 4, 4, "fault 4: locked, place 4"),
        (
            Fault::LowSupply { place: 0 },
            5,
            0,
            "fault 5: low supply, place 0",
        ),
        (worn, 6, 131_072, "fault 6: worn, odd lane, place 131072"),
        (Fault::NoSuchGeometry, 7, 0, "fault 7: no such geometry"),
    ];
    for (fault, number, place, text) in cases {
        assert_eq!(rt; fault.number(), number);
        assert_eq!(rt; fault.place(), place);
        let shown = fault.to_string(rt.alloc())?;
        assert_eq!(rt; shown.as_str(), text);
    }
    assert_eq!(rt; worn.lanes(), Some(Lanes::Odd));
    assert_eq!(rt; Fault::Locked { place: 4 }.lanes(), None);
    Ok(())
}
