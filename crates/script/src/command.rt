// What a line of a script asks.
use cards::Width;
use medium::Lanes;
use piles::Layer;
use writer::Job;

// The kinds of cards.
#[derive(Clone, Copy, PartialEq, Eq, Debug)]
pub enum Kind {
    Memory,
    Series2,
    Series100,
}

// A card to be made, by the numbers of its line, of which no `Geometry` may be made. Its bytes are the pattern, repeated and cut off at the length, or at the capacity if none is given.
#[derive(Drop)]
pub struct NewCard {
    pub kind: Kind,
    pub block_size: u32,
    pub blocks_per_pair: u32,
    pub pairs: u32,
    pub pattern: Vec<u8>,
    pub length: Option<u32>,
}

// A bus cycle.
#[derive(Clone, Copy)]
pub enum Cycle {
    Read { place: u32 },
    Write { place: u32, value: u16 },
}

// A call of a slot.
#[derive(Clone, Copy)]
pub enum SlotCall {
    Size,
    Sample,
    Reset,
    Pin,
    Cycle(Cycle),
}

// What a card itself does, below its layers.
#[derive(Drop)]
pub enum CardCall {
    Lives {
        block: u32,
        lanes: Lanes,
        count: u32,
    },
    Lock(bool),
    Supply(bool),
    Waits {
        write: u32,
        wipe: u32,
    },
    Raw {
        width: Width,
        cycle: Cycle,
    },
    Slot(SlotCall),
}

// A call of the block writer that takes a buffer. No `Request` of histories: that has a take too, and a script makes no
// buffer for it beforehand.
#[derive(Drop)]
pub enum WriterCall {
    Put { place: u32, bytes: Vec<u8> },
    Plan { place: u32, bytes: Vec<u8> },
    Clear { first: u32, count: u32 },
}

// What is asked of a card that there is.
#[derive(Drop)]
pub enum Order {
    Card(CardCall),
    Layer(Layer),
    Mark { block: u32, on: bool },
    Write { call: WriterCall, room: Option<u32> },
    Buffer,
    Take { place: u32, length: u32 },
    Job(Job),
    Show,
}

// What is asked under a name.
#[derive(Drop)]
pub enum Asked {
    New(NewCard),
    Order(Order),
}

// A line as a whole.
#[derive(Drop)]
pub struct Command<'a> {
    pub name: &'a [u8],
    pub asked: Asked,
}
