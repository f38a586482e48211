// What a command answered.
use crate::texts::{PinText, SupplyText};
use medium::Size;
use piles::BlockState;
use slot::SlotSize;
use std::fmt;
use writer::Counts;

// Bytes to be shown, and behind them so many more that are all AAH: of a long buffer those are never made.
#[derive(Drop)]
pub struct ShownBytes {
    pub bytes: Vec<u8>,
    pub untouched: u32,
}

// What a medium means, but for its contents.
#[derive(Drop)]
pub struct ShownMedium {
    pub size: Size,
    pub supply: bool,
    pub blocks: Vec<BlockState>,
}

// An answer, as a record tells it.
#[derive(Drop)]
pub enum Record {
    Done,
    Counted(Counts),
    Bytes(ShownBytes),
    Value(u16),
    Ready(bool),
    Pin(bool),
    SlotSize(SlotSize),
    Medium(ShownMedium),
}

// The first line of the record; bytes and blocks are told elsewhere.
impl fmt::Display for Record {
    fn fmt<W: fmt::Write>(&self, f: &mut fmt::Formatter<W>) -> fmt::Result {
        match self {
            Record::Done => write!(f, "ok"),
            Record::Counted(Counts { wipes, words }) => write!(f, "ok wipes={wipes} words={words}"),
            Record::Bytes(_) => write!(f, "ok bytes="),
            Record::Value(value) => write!(f, "ok value=0x{value:04X}"),
            Record::Ready(ready) => write!(f, "ok ready={ready}"),
            Record::Pin(on) => write!(f, "ok pin={}", PinText(*on)),
            Record::SlotSize(size) => {
                let block_size = size.block_size;
                let per_pair = size.blocks_per_pair;
                let pairs = size.pairs;
                write!(
                    f,
                    "ok block-size={block_size} blocks-per-pair={per_pair} pairs={pairs}"
                )
            }
            Record::Medium(medium) => {
                let Size { block_size, blocks } = medium.size;
                let supply = SupplyText(medium.supply);
                write!(
                    f,
                    "ok block-size={block_size} blocks={blocks} supply={supply}"
                )
            }
        }
    }
}
