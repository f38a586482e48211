// Cards of three kinds as cards of one, and as media.
ghost use Rattle.std.specs.Prelude.{◌≡◌, ◌<◌, IsOkAnd};
ghost use Rattle.medium.specs.Jobs.{lives_answer};
ghost use Rattle.script.specs.Cards.{all_locked, card_medium};
ghost use Rattle.piles.specs.Shown.{IsBlock};

use crate::command::{CardCall, Cycle, Kind, SlotCall};
use crate::record::Record;
use crate::trouble::Trouble;
use cards::{Series2Card, Series100Card, Width, Wiring};
use driver::Driver;
use histories::Either;
use medium::{BlockLives, Fault, Geometry};
use memory::MemoryCard;
use notation::Why;
use piles::BlockState;
use slot::Slot;

// A card of any kind, without a driver.
#[derive(Drop)]
pub(crate) enum Card {
    Memory(MemoryCard),
    Series2(Series2Card),
    Series100(Series100Card),
}

// A card of any kind, lent as a medium: those that have a bus behind the driver.
pub(crate) type Lent<'a> = Either<
    &'a mut MemoryCard,
    Either<Driver<&'a mut Series2Card>, Driver<&'a mut Series100Card>>,
>;

// A bus cycle of the card.
fn raw_cycle<W: Wiring + Drop>(card: &mut cards::Card<W>, width: Width, cycle: Cycle) -> Record {
    match cycle {
        Cycle::Read { place } => Record::Value(card.raw_read(width, place)),
        Cycle::Write { place, value } => {
            card.raw_write(width, place, value);
            Record::Done
        }
    }
}

// A word cycle of the slot.
fn slot_cycle<S: Slot>(slot: &mut S, cycle: Cycle) -> Result<Record, Fault> {
    match cycle {
        Cycle::Read { place } => Ok(Record::Value(slot.read_word(place)?)),
        Cycle::Write { place, value } => {
            slot.write_word(place, value)?;
            Ok(Record::Done)
        }
    }
}

fn slot_call<S: Slot>(slot: &mut S, call: SlotCall) -> Result<Record, Fault> {
    match call {
        SlotCall::Size => Ok(Record::SlotSize(slot.size())),
        SlotCall::Sample => Ok(Record::Ready(slot.sample())),
        SlotCall::Reset => {
            slot.reset();
            Ok(Record::Done)
        }
        SlotCall::Pin => Ok(Record::Pin(slot.pin())),
        SlotCall::Cycle(cycle) => slot_cycle(slot, cycle),
    }
}

// A call of a memory card, which has no bus.
fn memory_call(card: &mut MemoryCard, call: CardCall) -> Result<Record, Trouble> {
    match call {
        CardCall::Lives {
            block,
            lanes,
            count,
        } => card.set_lives(block, lanes, count)?,
        CardCall::Lock(on) => card.set_locked(on),
        CardCall::Supply(good) => card.set_supply(good),
        _ => return Err(Why::NoSuchPart.into()),
    }
    Ok(Record::Done)
}

// A call of a card on a bus, but for its own switches.
fn bus_call<W: Wiring + Drop>(
    card: &mut cards::Card<W>,
    call: CardCall,
) -> Result<Record, Trouble> {
    match call {
        CardCall::Lives {
            block,
            lanes,
            count,
        } => card.set_lives(block, lanes, count)?,
        CardCall::Waits { write, wipe } => card.set_waits(write, wipe),
        CardCall::Raw { width, cycle } => return Ok(raw_cycle(card, width, cycle)),
        CardCall::Slot(call) => return Ok(slot_call(card, call)?),
        _ => return Err(Why::NoSuchPart.into()),
    }
    Ok(Record::Done)
}

// A call of a Series 2 card, which has two switches.
fn series2_call(card: &mut Series2Card, call: CardCall) -> Result<Record, Trouble> {
    match call {
        CardCall::Lock(on) => card.set_protect(on),
        CardCall::Supply(good) => card.set_supply(good),
        _ => return bus_call(card, call),
    }
    Ok(Record::Done)
}

// A match of three arms in each call: a trait for the three cards would want as many lines in its impls.
impl Card {
    pub(crate) fn new(kind: Kind, geometry: Geometry, bytes: Vec<u8>) -> Card {
        match kind {
            Kind::Memory => Card::Memory(MemoryCard::new(geometry, bytes)),
            Kind::Series2 => Card::Series2(Series2Card::new(geometry, bytes)),
            Kind::Series100 => Card::Series100(Series100Card::new(geometry, bytes)),
        }
    }

    // The card as a medium, for as long as it is lent.
    pub(crate) fn medium(&mut self) -> Lent<'_> {
        match self {
            Card::Memory(card) => Either::First(card),
            Card::Series2(card) => Either::Second(Either::First(Driver::new(card))),
            Card::Series100(card) => Either::Second(Either::Second(Driver::new(card))),
        }
    }

    // Whether all blocks are locked, or none.
    fn is_locked(&self) -> bool
        ensures { result ≡ all_locked self.now }
    {
        match self {
            Card::Memory(card) => card.is_locked(),
            Card::Series2(card) => card.pin(),
            Card::Series100(card) => card.pin(),
        }
    }

    // Whether the supply is good.
    pub(crate) fn has_supply(&self) -> bool
        ensures { result ≡ (card_medium self.now).supply }
    {
        match self {
            Card::Memory(card) => card.has_supply(),
            Card::Series2(card) => card.has_supply(),
            Card::Series100(_) => true,
        }
    }

    // The lives left on a block.
    fn lives(&self, block: u32) -> Result<BlockLives, Fault>
        ensures { result ≡ lives_answer (card_medium self.now) block }
    {
        match self {
            Card::Memory(card) => card.lives(block),
            Card::Series2(card) => card.lives(block),
            Card::Series100(card) => card.lives(block),
        }
    }

    // The lock and the lives of a block.
    pub(crate) fn block(&self, block: u32) -> Result<BlockState, Fault>
        ensures { block < (card_medium self.now).blocks → IsOkAnd result (IsBlock (card_medium self.now) block) }
    {
        let BlockLives { even, odd } = self.lives(block)?;
        let locked = self.is_locked();
        Ok(BlockState { locked, even, odd })
    }

    // Carries out a call of the card itself.
    pub(crate) fn call(&mut self, call: CardCall) -> Result<Record, Trouble> {
        match self {
            Card::Memory(card) => memory_call(card, call),
            Card::Series2(card) => series2_call(card, call),
            Card::Series100(card) => bus_call(card, call),
        }
    }
}
