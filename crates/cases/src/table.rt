// The worked cases 1 to 11, as a table of rows that are known by hand. docs/cases.md tells them one by one.
ghost use Rattle.cases.specs.Computed.{Computed};
ghost use Rattle.cases.specs.Table.{EachCase};

use devices::Mode;
use medium::{Fault, Lanes};
use writer::{Counts, WriterFault};

// The small card at some moment: its contents in two blocks of four bytes, its lock switch, and the lives of each lane
// on each block, by lane as a medium's meaning has them. Its supply is good.
#[derive(Clone, Copy)]
pub struct CardState {
    pub bytes: [u8; 8],
    pub locked: bool,
    pub even: [u32; 2],
    pub odd: [u32; 2],
}

// A put of bytes at a place, what it answers, and the card before and after it. What a worn wipe leaves is anything, so
// of the contents after it the first `untold` bytes are not told.
#[derive(Drop)]
pub struct PutCase {
    pub before: CardState,
    pub place: u32,
    pub bytes: &'static [u8],
    pub answer: Result<Counts, WriterFault>,
    pub after: CardState,
    // A count, and no `Option` for each byte: one row alone has untold bytes, and they are its whole first block.
    pub untold: usize,
}

// A device that is as after reset but for its mode takes a byte; then a read shows this.
#[derive(Drop)]
pub struct DeviceCase {
    pub mode: Mode,
    pub byte: u8,
    pub shown: u8,
}

// A pair of devices as after reset, under a supply that is good or low, is sent words at place 0; then a read of the
// word at a place shows this.
#[derive(Drop)]
pub struct CycleCase {
    pub supply: bool,
    pub words: &'static [u16],
    pub place: u32,
    pub shown: u16,
}

// Cases 1 to 6 in their order, the sixth in two rows; 7 and 8; 9; 10, and 11 in two rows.
#[derive(Drop)]
pub struct Cases {
    pub on_one_card: [PutCase; 7],
    pub with_worn_lanes: [PutCase; 2],
    pub device: DeviceCase,
    pub pairs: [CycleCase; 3],
}

const BLANK: CardState = CardState {
    bytes: [0xff; 8],
    locked: false,
    even: [100, 100],
    odd: [100, 100],
};

const FIRST: CardState = CardState {
    bytes: [0x12, 0x34, 0xff, 0xff, 0xff, 0xff, 0xff, 0xff],
    even: [99, 100],
    odd: [99, 100],
    ..BLANK
};

const SECOND: CardState = CardState {
    bytes: [0x12, 0x30, 0xff, 0xff, 0xff, 0xff, 0xff, 0xff],
    even: [98, 100],
    odd: [98, 100],
    ..BLANK
};

const THIRD: CardState = CardState {
    bytes: [0x12, 0x31, 0xff, 0xff, 0xff, 0xff, 0xff, 0xff],
    even: [96, 100],
    odd: [96, 100],
    ..BLANK
};

const THIRD_LOCKED: CardState = CardState {
    locked: true,
    ..THIRD
};

const FIFTH: CardState = CardState {
    bytes: [0x12, 0x31, 0xff, 0x00, 0x00, 0xff, 0xff, 0xff],
    even: [95, 99],
    odd: [95, 99],
    ..BLANK
};

const ODD_WORN: CardState = CardState {
    odd: [0, 100],
    ..THIRD
};

const ODD_WORN_AFTER: CardState = CardState {
    bytes: [0x00, 0x31, 0xff, 0xff, 0xff, 0xff, 0xff, 0xff],
    even: [95, 100],
    ..ODD_WORN
};

const BOTH_WORN: CardState = CardState {
    even: [0, 100],
    ..ODD_WORN
};

const TABLE: Cases = Cases {
    on_one_card: [
        PutCase {
            before: BLANK,
            place: 0,
            bytes: &[0x12, 0x34],
            answer: Ok(Counts { wipes: 0, words: 1 }),
            after: FIRST,
            untold: 0,
        },
        PutCase {
            before: FIRST,
            place: 1,
            bytes: &[0x30],
            answer: Ok(Counts { wipes: 0, words: 1 }),
            after: SECOND,
            untold: 0,
        },
        PutCase {
            before: SECOND,
            place: 1,
            bytes: &[0x31],
            answer: Ok(Counts { wipes: 1, words: 1 }),
            after: THIRD,
            untold: 0,
        },
        PutCase {
            before: THIRD_LOCKED,
            place: 1,
            bytes: &[0x31],
            answer: Ok(Counts { wipes: 0, words: 0 }),
            after: THIRD_LOCKED,
            untold: 0,
        },
        PutCase {
            before: THIRD,
            place: 3,
            bytes: &[0x00, 0x00],
            answer: Ok(Counts { wipes: 0, words: 2 }),
            after: FIFTH,
            untold: 0,
        },
        PutCase {
            before: FIFTH,
            place: 8,
            bytes: &[],
            answer: Ok(Counts { wipes: 0, words: 0 }),
            after: FIFTH,
            untold: 0,
        },
        PutCase {
            before: FIFTH,
            place: 8,
            bytes: &[0],
            answer: Err(WriterFault {
                fault: Fault::OffCard { place: 8 },
                wipes: 0,
                words: 0,
            }),
            after: FIFTH,
            untold: 0,
        },
    ],
    with_worn_lanes: [
        PutCase {
            before: ODD_WORN,
            place: 0,
            bytes: &[0x00],
            answer: Err(WriterFault {
                fault: Fault::Worn {
                    place: 0,
                    lanes: Lanes::Odd,
                },
                wipes: 0,
                words: 1,
            }),
            after: ODD_WORN_AFTER,
            untold: 0,
        },
        PutCase {
            before: BOTH_WORN,
            place: 1,
            bytes: &[0x32],
            answer: Err(WriterFault {
                fault: Fault::Worn {
                    place: 0,
                    lanes: Lanes::Both,
                },
                wipes: 1,
                words: 0,
            }),
            after: BOTH_WORN,
            untold: 4,
        },
    ],
    device: DeviceCase {
        mode: Mode::WipeArmed,
        byte: 0x12,
        shown: 0xb0,
    },
    pairs: [
        CycleCase {
            supply: false,
            words: &[0x4040, 0x0000],
            place: 0,
            shown: 0x8888,
        },
        CycleCase {
            supply: true,
            words: &[0x9090],
            place: 0,
            shown: 0x8989,
        },
        CycleCase {
            supply: true,
            words: &[0x9090],
            place: 2,
            shown: 0xa2a2,
        },
    ],
};

// The table, with what the definitions give on each row.
fn rows() -> Cases
    ensures { Computed result }
{
    TABLE
}

// The table. Each row is proved of the definitions that the contracts of the calls are made of: every put, device and
// slot that keeps its contract does what the row says.
pub fn worked_cases() -> Cases
    ensures { EachCase result }
{
    rows()
}
