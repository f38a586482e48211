// From the words of a line to a command.
use crate::command::{Asked, CardCall, Command, Cycle, Kind, NewCard, Order, SlotCall, WriterCall};
use cards::Width;
use layers::Marks;
use medium::Lanes;
use notation::{Why, Words, unpaired};
use piles::Layer;
use std::fs;
use std::io::ErrorKind;
use std::str::from_utf8;
use writer::Job;

// The bytes of a file.
fn file_bytes(rt: &HostRuntime, name: &[u8]) -> Result<Vec<u8>, Why> {
    let path = from_utf8(name).map_err(|_| Why::NoFile)?;
    fs::read(rt, path).map_err(|error| match error.kind() {
        ErrorKind::OutOfMemory => Why::OutOfMemory,
        _ => Why::NoFile,
    })
}

// The bytes that a word stands for: pairs of digits, "-" for none, or those of a file.
fn parse_hex(rt: &HostRuntime, word: &[u8]) -> Result<Vec<u8>, Why> {
    match word {
        b"-" => Ok(Vec::new(rt.alloc())),
        [b'@', name @ ..] => file_bytes(rt, name),
        _ => unpaired(rt.alloc(), word),
    }
}

// The pattern of a new card: FF if it is left out, and never empty.
fn parse_pattern(rt: &HostRuntime, word: Option<&[u8]>) -> Result<Vec<u8>, Why> {
    let bytes = parse_hex(rt, word.unwrap_or(b"FF"))?;
    if bytes.is_empty() {
        return Err(Why::NoBytes);
    }
    Ok(bytes)
}

// What one fixed word of a script stands for.
trait FixedWord: Sized {
    fn from_word(word: &[u8]) -> Option<Self>;
}

impl FixedWord for Kind {
    fn from_word(word: &[u8]) -> Option<Kind> {
        match word {
            b"memory" => Some(Kind::Memory),
            b"series2" => Some(Kind::Series2),
            b"series100" => Some(Kind::Series100),
            _ => None,
        }
    }
}

impl FixedWord for Lanes {
    fn from_word(word: &[u8]) -> Option<Lanes> {
        match word {
            b"even" => Some(Lanes::Even),
            b"odd" => Some(Lanes::Odd),
            b"both" => Some(Lanes::Both),
            _ => None,
        }
    }
}

impl FixedWord for Width {
    fn from_word(word: &[u8]) -> Option<Width> {
        match word {
            b"word" => Some(Width::Word),
            b"byte" => Some(Width::Byte),
            b"odd" => Some(Width::OddByte),
            _ => None,
        }
    }
}

// Whether a switch or a mark is on.
#[derive(Clone, Copy)]
struct IsOn(bool);

impl FixedWord for IsOn {
    fn from_word(word: &[u8]) -> Option<IsOn> {
        match word {
            b"on" => Some(IsOn(true)),
            b"off" => Some(IsOn(false)),
            _ => None,
        }
    }
}

// Whether the supply is good.
#[derive(Clone, Copy)]
struct IsGood(bool);

impl FixedWord for IsGood {
    fn from_word(word: &[u8]) -> Option<IsGood> {
        match word {
            b"good" => Some(IsGood(true)),
            b"low" => Some(IsGood(false)),
            _ => None,
        }
    }
}

// What the next word stands for.
fn parse_fixed<T: FixedWord>(words: &mut Words) -> Result<T, Why> {
    T::from_word(words.word()?).ok_or(Why::WordOutOfPlace)
}

// "read PLACE" or "write PLACE VALUE", of which the first word is given.
fn parse_cycle(first: &[u8], words: &mut Words) -> Result<Cycle, Why> {
    match first {
        b"read" => Ok(Cycle::Read {
            place: words.number()?,
        }),
        b"write" => Ok(Cycle::Write {
            place: words.number()?,
            value: words.value()?,
        }),
        _ => Err(Why::WordOutOfPlace),
    }
}

fn parse_slot_call(words: &mut Words) -> Result<SlotCall, Why> {
    match words.word()? {
        b"size" => Ok(SlotCall::Size),
        b"sample" => Ok(SlotCall::Sample),
        b"reset" => Ok(SlotCall::Reset),
        b"pin" => Ok(SlotCall::Pin),
        other => Ok(SlotCall::Cycle(parse_cycle(other, words)?)),
    }
}

fn parse_new_card(rt: &HostRuntime, words: &mut Words) -> Result<NewCard, Why> {
    Ok(NewCard {
        kind: parse_fixed(words)?,
        block_size: words.number()?,
        blocks_per_pair: words.number()?,
        pairs: words.number()?,
        pattern: parse_pattern(rt, words.optional())?,
        length: words.optional_number()?,
    })
}

fn parse_layer(words: &mut Words) -> Result<Layer, Why> {
    match words.word()? {
        b"window" => Ok(Layer::Window {
            first: words.number()?,
            count: words.number()?,
        }),
        b"fence" => Ok(Layer::Fence(Marks::none())),
        _ => Err(Why::WordOutOfPlace),
    }
}

fn parse_lives_call(words: &mut Words) -> Result<CardCall, Why> {
    Ok(CardCall::Lives {
        block: words.number()?,
        lanes: parse_fixed(words)?,
        count: words.number()?,
    })
}

fn parse_waits_call(words: &mut Words) -> Result<CardCall, Why> {
    Ok(CardCall::Waits {
        write: words.number()?,
        wipe: words.number()?,
    })
}

fn parse_raw_call(words: &mut Words) -> Result<CardCall, Why> {
    let width = parse_fixed(words)?;
    let first = words.word()?;
    Ok(CardCall::Raw {
        width,
        cycle: parse_cycle(first, words)?,
    })
}

// A call of the card itself.
fn parse_card_call(verb: &[u8], words: &mut Words) -> Result<CardCall, Why> {
    match verb {
        b"lives" => parse_lives_call(words),
        b"lock" => Ok(CardCall::Lock(parse_fixed::<IsOn>(words)?.0)),
        b"supply" => Ok(CardCall::Supply(parse_fixed::<IsGood>(words)?.0)),
        b"waits" => parse_waits_call(words),
        b"raw" => parse_raw_call(words),
        b"slot" => Ok(CardCall::Slot(parse_slot_call(words)?)),
        _ => Err(Why::NoCommand),
    }
}

// A call of the writer with the room for it, if that is given.
fn parse_room(call: WriterCall, words: &mut Words) -> Result<Order, Why> {
    let room = words.optional_number()?;
    Ok(Order::Write { call, room })
}

// A call of the writer that is made of a place and bytes for it.
fn parse_placed<F: FnOnce(u32, Vec<u8>) -> WriterCall>(
    rt: &HostRuntime,
    words: &mut Words,
    made: F,
) -> Result<Order, Why>
    requires { F.IsAlwaysCallable made }
{
    let place = words.number()?;
    let bytes = parse_hex(rt, words.word()?)?;
    parse_room(made(place, bytes), words)
}

fn parse_clear(words: &mut Words) -> Result<Order, Why> {
    let first = words.number()?;
    let count = words.number()?;
    parse_room(WriterCall::Clear { first, count }, words)
}

fn parse_mark_order(words: &mut Words) -> Result<Order, Why> {
    Ok(Order::Mark {
        block: words.number()?,
        on: parse_fixed::<IsOn>(words)?.0,
    })
}

fn parse_take_order(words: &mut Words) -> Result<Order, Why> {
    Ok(Order::Take {
        place: words.number()?,
        length: words.number()?,
    })
}

fn parse_word_job(words: &mut Words) -> Result<Job, Why> {
    Ok(Job::Word {
        place: words.number()?,
        word: words.value()?,
    })
}

fn parse_wipe_job(words: &mut Words) -> Result<Job, Why> {
    Ok(Job::Wipe {
        block: words.number()?,
    })
}

// What is asked of a card that there is.
fn parse_order(rt: &HostRuntime, verb: &[u8], words: &mut Words) -> Result<Order, Why> {
    match verb {
        b"layer" => Ok(Order::Layer(parse_layer(words)?)),
        b"mark" => parse_mark_order(words),
        b"put" => parse_placed(rt, words, |place, bytes| WriterCall::Put { place, bytes }),
        b"plan" => parse_placed(rt, words, |place, bytes| WriterCall::Plan { place, bytes }),
        b"clear" => parse_clear(words),
        b"buffer" => Ok(Order::Buffer),
        b"take" => parse_take_order(words),
        b"word" => Ok(Order::Job(parse_word_job(words)?)),
        b"wipe" => Ok(Order::Job(parse_wipe_job(words)?)),
        b"show" => Ok(Order::Show),
        _ => Ok(Order::Card(parse_card_call(verb, words)?)),
    }
}

fn parse_asked(rt: &HostRuntime, verb: &[u8], words: &mut Words) -> Result<Asked, Why> {
    match verb {
        b"card" => Ok(Asked::New(parse_new_card(rt, words)?)),
        _ => Ok(Asked::Order(parse_order(rt, verb, words)?)),
    }
}

// The command of a line, by its first word and those behind it. Nothing is tried before the line is read as a whole.
pub(crate) fn parse<'a>(
    rt: &HostRuntime,
    verb: &[u8],
    mut words: Words<'a>,
) -> Result<Command<'a>, Why> {
    let name = words.word()?;
    let asked = parse_asked(rt, verb, &mut words)?;
    words.end()?;
    Ok(Command { name, asked })
}
