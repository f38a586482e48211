// The access tables: what each width reaches at even and odd addresses, at the last word, past the capacity, with the
// pin on, and on a card without blocks.
use cards::{Card, Series2Card, Series100Card, Width, Wiring};
use medium::Geometry;
use slot::Slot;
use std::alloc::Global;
use std::process::Abort;
use std::test::Fail;

const LINES: u32 = 0x200_0000;

// Six bytes: three blocks of a word each, so that the capacity is no power of two.
const BYTES: [u8; 6] = [0x10, 0x21, 0x32, 0x43, 0x54, 0x65];

fn series2(heap: Global, bytes: &[u8]) -> Result<Series2Card, Fail> {
    Ok(Series2Card::new(Geometry::new(2, 3, 1)?, bytes.to_vec(heap)?))
}

fn series100(heap: Global, bytes: &[u8]) -> Result<Series100Card, Fail> {
    Ok(Series100Card::new(Geometry::new(2, 3, 1)?, bytes.to_vec(heap)?))
}

// What an address shows by a word, a byte and an odd-byte read.
fn shows<W: Wiring>(
    rt: &impl Abort,
    card: &mut Card<W>,
    address: u32,
    word: u16,
    byte: u16,
    odd: u16,
) {
    assert_eq!(rt; card.raw_read(Width::Word, address), word);
    assert_eq!(rt; card.raw_read(Width::Byte, address), byte);
    assert_eq!(rt; card.raw_read(Width::OddByte, address), odd);
}

#[test]
fn reads_of_series_2(rt: HostRuntime) -> Result<(), Fail> {
    let mut card = series2(rt.alloc(), &BYTES)?;
    // address, and what it shows: a word, a byte, an odd byte
    let rows = [
        (0, 0x2110, 0xff10, 0x21ff),
        (1, 0x2110, 0xff21, 0x21ff),
        (2, 0x4332, 0xff32, 0x43ff),
        (3, 0x4332, 0xff43, 0x43ff),
        (4, 0x6554, 0xff54, 0x65ff),
        (5, 0x6554, 0xff65, 0x65ff),
        (6, 0xffff, 0xffff, 0xffff),
        (7, 0xffff, 0xffff, 0xffff),
        (LINES - 1, 0xffff, 0xffff, 0xffff),
        (LINES, 0x2110, 0xff10, 0x21ff),
        (LINES + 5, 0x6554, 0xff65, 0x65ff),
        (LINES + 6, 0xffff, 0xffff, 0xffff),
        (u32::MAX, 0xffff, 0xffff, 0xffff),
    ];
    for (address, word, byte, odd) in rows {
        shows(&rt, &mut card, address, word, byte, odd);
    }
    Ok(())
}

#[test]
fn reads_of_series_100(rt: HostRuntime) -> Result<(), Fail> {
    let mut card = series100(rt.alloc(), &BYTES)?;
    let rows = [
        (0, 0x2110, 0xff10, 0x21ff),
        (1, 0x2110, 0xff10, 0x21ff),
        (2, 0x4332, 0xff32, 0x43ff),
        (3, 0x4332, 0xff32, 0x43ff),
        (5, 0x6554, 0xff54, 0x65ff),
        // it wraps by the remainder
        (6, 0x2110, 0xff10, 0x21ff),
        (7, 0x2110, 0xff10, 0x21ff),
        (8, 0x4332, 0xff32, 0x43ff),
        (11, 0x6554, 0xff54, 0x65ff),
        (LINES, 0x4332, 0xff32, 0x43ff),
        // 4,294,967,295 is 3 more than a multiple of 6
        (u32::MAX, 0x4332, 0xff32, 0x43ff),
    ];
    for (address, word, byte, odd) in rows {
        shows(&rt, &mut card, address, word, byte, odd);
    }
    Ok(())
}

// The word that the pair at place 0 shows after the command for ident mode at an address, from all devices in array
// mode: a device that it reached shows 89H.
fn reached<W: Wiring>(card: &mut Card<W>, width: Width, address: u32) -> u16 {
    card.reset();
    card.raw_write(width, address, 0x9090);
    card.raw_read(Width::Word, 0)
}

fn reaches<W: Wiring>(
    rt: &impl Abort,
    card: &mut Card<W>,
    address: u32,
    word: u16,
    byte: u16,
    odd: u16,
) {
    assert_eq!(rt; reached(card, Width::Word, address), word);
    assert_eq!(rt; reached(card, Width::Byte, address), byte);
    assert_eq!(rt; reached(card, Width::OddByte, address), odd);
}

#[test]
fn writes_of_series_2(rt: HostRuntime) -> Result<(), Fail> {
    let mut card = series2(rt.alloc(), &BYTES)?;
    let rows = [
        (0, 0x8989, 0x2189, 0x8910),
        (1, 0x8989, 0x8910, 0x8910),
        (4, 0x8989, 0x2189, 0x8910),
        (5, 0x8989, 0x8910, 0x8910),
        (6, 0x2110, 0x2110, 0x2110),
        (LINES - 1, 0x2110, 0x2110, 0x2110),
        (LINES + 3, 0x8989, 0x8910, 0x8910),
        (u32::MAX, 0x2110, 0x2110, 0x2110),
    ];
    for (address, word, byte, odd) in rows {
        reaches(&rt, &mut card, address, word, byte, odd);
    }
    // the pin stops every width
    card.set_protect(true);
    reaches(&rt, &mut card, 0, 0x2110, 0x2110, 0x2110);
    reaches(&rt, &mut card, 1, 0x2110, 0x2110, 0x2110);
    assert_eq!(rt; card.pin(), true);
    card.set_protect(false);
    reaches(&rt, &mut card, 1, 0x8989, 0x8910, 0x8910);
    Ok(())
}

#[test]
fn writes_of_series_100(rt: HostRuntime) -> Result<(), Fail> {
    let mut card = series100(rt.alloc(), &BYTES)?;
    let rows = [
        (0, 0x8989, 0x2189, 0x8910),
        (1, 0x8989, 0x2189, 0x8910),
        (5, 0x8989, 0x2189, 0x8910),
        (7, 0x8989, 0x2189, 0x8910),
        (u32::MAX, 0x8989, 0x2189, 0x8910),
    ];
    for (address, word, byte, odd) in rows {
        reaches(&rt, &mut card, address, word, byte, odd);
    }
    assert_eq!(rt; card.pin(), false);
    Ok(())
}

#[test]
fn low_and_high_half(rt: HostRuntime) -> Result<(), Fail> {
    let mut card = series2(rt.alloc(), &BYTES)?;
    // the low byte is the even device's: 90H for it, 70H for the odd one
    card.raw_write(Width::Word, 0, 0x7090);
    assert_eq!(rt; card.raw_read(Width::Word, 0), 0x8089);
    card.reset();
    // a byte cycle brings its low half to the odd device, and ignores the high one
    card.raw_write(Width::Byte, 1, 0x7090);
    assert_eq!(rt; card.raw_read(Width::Word, 0), 0x8910);
    card.reset();
    // an odd-byte cycle ignores the low half
    card.raw_write(Width::OddByte, 1, 0x7090);
    assert_eq!(rt; card.raw_read(Width::Word, 0), 0x8010);
    Ok(())
}

#[test]
fn cards_without_blocks(rt: HostRuntime) -> Result<(), Fail> {
    let mut two = series2(rt.alloc(), &[0; 5])?;
    let mut hundred = series100(rt.alloc(), &[])?;
    for address in [0, 1, 6, LINES, u32::MAX] {
        shows(&rt, &mut two, address, 0xffff, 0xffff, 0xffff);
        shows(&rt, &mut hundred, address, 0xffff, 0xffff, 0xffff);
        two.raw_write(Width::Word, address, 0x4040);
        hundred.raw_write(Width::Byte, address, 0x4040);
    }
    assert_eq!(rt; two.size().pairs, 0);
    assert_eq!(rt; hundred.size().pairs, 0);
    assert_eq!(rt; two.into_bytes().len(), 0);
    Ok(())
}
