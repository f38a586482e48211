// Devices, tried by hand and byte by byte.
use crate::device::{Device, Job, Mode};
use crate::table::DeviceTable;
use std::process::Abort;

const GOOD: bool = true;

const LOW: bool = false;

// What each byte does to a ready device, sixteen bytes to a line. Not armed:
// . array, i ident, s status, w write-armed, p wipe-armed, c no error bits and array
const COMMANDS: [&[u8; 16]; 16] = [
    b"................", // 0
    b"w...............", // 1
    b"p...............", // 2
    b"................", // 3
    b"w...............", // 4
    b"c...............", // 5
    b"................", // 6
    b"s...............", // 7
    b"................", // 8
    b"i...............", // 9
    b"................", // A
    b"................", // B
    b"................", // C
    b"................", // D
    b"................", // E
    b"................", // F
];
// Write-armed: every byte begins a write.
const DATA: [&[u8; 16]; 16] = [b"WWWWWWWWWWWWWWWW"; 16];
// Wipe-armed: D0H begins a wipe, any other byte sets bits 5 and 4.
const CONFIRM: [&[u8; 16]; 16] = [
    b"xxxxxxxxxxxxxxxx", // 0
    b"xxxxxxxxxxxxxxxx", // 1
    b"xxxxxxxxxxxxxxxx", // 2
    b"xxxxxxxxxxxxxxxx", // 3
    b"xxxxxxxxxxxxxxxx", // 4
    b"xxxxxxxxxxxxxxxx", // 5
    b"xxxxxxxxxxxxxxxx", // 6
    b"xxxxxxxxxxxxxxxx", // 7
    b"xxxxxxxxxxxxxxxx", // 8
    b"xxxxxxxxxxxxxxxx", // 9
    b"xxxxxxxxxxxxxxxx", // A
    b"xxxxxxxxxxxxxxxx", // B
    b"xxxxxxxxxxxxxxxx", // C
    b"Exxxxxxxxxxxxxxx", // D
    b"xxxxxxxxxxxxxxxx", // E
    b"xxxxxxxxxxxxxxxx", // F
];

// The mode, the status and the job that a mark of the tables stands for, where the status was `was`.
fn meant(mark: u8, was: u8, supply: bool) -> (Mode, u8, Option<Job>) {
    let held_back = was & 0x08 != 0 || !supply;
    match mark {
        b'i' => (Mode::Ident, was, None),
        b's' => (Mode::Status, was, None),
        b'w' => (Mode::WriteArmed, was, None),
        b'p' => (Mode::WipeArmed, was, None),
        b'c' => (Mode::Array, 0x80, None),
        b'x' => (Mode::Status, was | 0x30, None),
        b'W' | b'E' if held_back => (Mode::Status, was | 0x08, None),
        b'W' => (Mode::Status, was, Some(Job::Write)),
        b'E' => (Mode::Status, was, Some(Job::Wipe)),
        _ => (Mode::Array, was, None),
    }
}

// A device in a mode, with the error bits of `from`.
fn turned(from: Device, mode: Mode) -> Device {
    let mut device = from;
    let byte = match mode {
        Mode::Array => 0xff,
        Mode::Ident => 0x90,
        Mode::Status => 0x70,
        Mode::WriteArmed => 0x40,
        Mode::WipeArmed => 0x20,
    };
    let _ = device.take(byte, GOOD);
    device
}

// A device with bits 5 and 4, and one with bit 3 as well.
fn with_bits_5_4() -> Device {
    let mut device = turned(Device::new(), Mode::WipeArmed);
    let _ = device.take(0x12, GOOD);
    device
}

fn with_all_bits() -> Device {
    let mut device = turned(with_bits_5_4(), Mode::WriteArmed);
    let _ = device.take(0x00, LOW);
    device
}

// All bytes at one device, under one supply.
fn try_bytes(rt: &impl Abort, device: Device, supply: bool, table: &[&[u8; 16]; 16]) {
    let was = device.status();
    for byte in 0..=255u8 {
        let mut tried = device;
        let job = tried.take(byte, supply);
        let mark = table[(byte / 16) as usize][(byte % 16) as usize];
        let (mode, status, begun) = meant(mark, was, supply);
        assert_eq!(rt; tried.mode, mode);
        assert_eq!(rt; tried.status(), status);
        assert_eq!(rt; job, begun);
    }
}

// All bytes at a device that is busy: it stays as it is.
fn try_busy(rt: &impl Abort, device: Device, supply: bool) {
    let mut busy = device;
    busy.begin(Job::Write, false, 1);
    for byte in 0..=255u8 {
        let mut tried = busy;
        assert_eq!(rt; tried.take(byte, supply), None);
        assert_eq!(rt; tried.mode, device.mode);
        assert_eq!(rt; tried.status(), device.status() ^ 0x80);
        tried.lower();
        assert_eq!(rt; tried.status(), device.status());
    }
}

fn try_modes(rt: &impl Abort, from: Device, supply: bool) {
    let tables = [
        (Mode::Array, &COMMANDS),
        (Mode::Ident, &COMMANDS),
        (Mode::Status, &COMMANDS),
        (Mode::WriteArmed, &DATA),
        (Mode::WipeArmed, &CONFIRM),
    ];
    for (mode, table) in tables {
        let device = turned(from, mode);
        try_bytes(rt, device, supply, table);
        try_busy(rt, device, supply);
    }
}

// Every byte in every mode, ready and busy, with and without error bits, under good and low supply.
#[test]
fn every_byte(rt: HostRuntime) {
    assert_eq!(rt; with_bits_5_4().status(), 0xb0);
    assert_eq!(rt; with_all_bits().status(), 0xb8);
    try_modes(&rt, Device::new(), GOOD);
    try_modes(&rt, Device::new(), LOW);
    try_modes(&rt, with_bits_5_4(), GOOD);
    try_modes(&rt, with_bits_5_4(), LOW);
    try_modes(&rt, with_all_bits(), GOOD);
    try_modes(&rt, with_all_bits(), LOW);
}

// The bytes that a pair of devices shows at a place.
fn shown(devices: &mut DeviceTable, place: u32) -> (u8, u8) {
    (devices.show(0, place, 0x55), devices.show(1, place, 0xaa))
}

// A word to a pair, under a supply: the jobs that begin.
fn sent(devices: &mut DeviceTable, word: u16, supply: bool) -> (Option<Job>, Option<Job>) {
    let [low, high] = word.to_le_bytes();
    (devices.take(0, low, supply), devices.take(1, high, supply))
}

// A wipe-armed device that is given 12H reads B0H.
#[test]
fn unconfirmed(rt: HostRuntime) {
    let mut devices = DeviceTable::new(1);
    assert_eq!(rt; sent(&mut devices, 0x2020, GOOD), (None, None));
    assert_eq!(rt; sent(&mut devices, 0x1212, GOOD), (None, None));
    assert_eq!(rt; shown(&mut devices, 0), (0xb0, 0xb0));
}

// Under low supply a write shows 88H and does not begin, and bit 3 holds the next back too.
#[test]
fn low_supply(rt: HostRuntime) {
    let mut devices = DeviceTable::new(1);
    assert_eq!(rt; sent(&mut devices, 0x4040, LOW), (None, None));
    assert_eq!(rt; sent(&mut devices, 0x0000, LOW), (None, None));
    assert_eq!(rt; shown(&mut devices, 0), (0x88, 0x88));
    assert_eq!(rt; sent(&mut devices, 0x2020, GOOD), (None, None));
    assert_eq!(rt; sent(&mut devices, 0xd0d0, GOOD), (None, None));
    assert_eq!(rt; shown(&mut devices, 0), (0x88, 0x88));
}

// After 90H the codes 89H and A2H come by turns from word to word.
#[test]
fn codes(rt: HostRuntime) {
    let mut devices = DeviceTable::new(1);
    assert_eq!(rt; sent(&mut devices, 0x9090, GOOD), (None, None));
    assert_eq!(rt; shown(&mut devices, 0), (0x89, 0x89));
    assert_eq!(rt; shown(&mut devices, 2), (0xa2, 0xa2));
    assert_eq!(rt; shown(&mut devices, 4), (0x89, 0x89));
}

// One device of a pair is done before the other; its error bit stands, and a sample or a read lowers a wait.
#[test]
fn two_waits(rt: HostRuntime) {
    let mut devices = DeviceTable::new(1);
    assert_eq!(rt; sent(&mut devices, 0x4040, GOOD), (None, None));
    assert_eq!(rt;
        sent(&mut devices, 0x1234, GOOD),
        (Some(Job::Write), Some(Job::Write))
    );
    devices.begin(0, Job::Write, true, 1);
    devices.begin(1, Job::Write, false, 3);
    assert_eq!(rt; shown(&mut devices, 0), (0x10, 0x00));
    assert_eq!(rt; shown(&mut devices, 0), (0x90, 0x00));
    assert!(rt; !devices.sample());
    assert!(rt; devices.sample());
    assert_eq!(rt; shown(&mut devices, 0), (0x90, 0x80));
    devices.reset();
    assert_eq!(rt; shown(&mut devices, 0), (0x55, 0xaa));
}

// A wait over the longest counts as the longest, and a device that is not there does nothing.
#[test]
fn limits(rt: HostRuntime) {
    let mut devices = DeviceTable::new(1);
    devices.begin(0, Job::Wipe, false, 5000);
    for _ in 0..1000 {
        assert!(rt; !devices.sample());
    }
    assert!(rt; devices.sample());
    devices.begin(2, Job::Wipe, true, 5000);
    assert!(rt; devices.sample());
    assert_eq!(rt; devices.take(2, 0x40, GOOD), None);
    assert_eq!(rt; devices.take(2, 0x00, GOOD), None);
    assert_eq!(rt; devices.show(2, 0, 0x55), 0x55);
    assert_eq!(rt; DeviceTable::new(11).pairs(), 10);
}
