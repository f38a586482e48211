// The cards of a run, and the commands on them.
use crate::card::Card;
use crate::command::{Asked, Command, NewCard, Order};
use crate::held::Held;
use crate::parsing::parse;
use crate::record::Record;
use crate::trouble::Trouble;
use medium::Geometry;
use notation::{Why, Words, repeated};
use std::alloc::{AllocError, Global};
use std::collections::BTreeMap;

// All cards that have been made, by their names. Each stands in a block of its own: the map keeps room for several beside
// each other, and what is held under a name is large.
#[derive(Drop)]
pub struct Session {
    heap: Global,
    cards: BTreeMap<Vec<u8>, Box<Held>>,
}

// The bytes of a new card. Where they would not be as many as the capacity, the card has no blocks however many they
// are, and none are made.
fn card_bytes(heap: Global, new: &NewCard, geometry: Geometry) -> Result<Vec<u8>, AllocError> {
    let capacity = geometry.capacity();
    if new.length.unwrap_or(capacity) != capacity {
        return Ok(Vec::new(heap));
    }
    repeated(heap, &new.pattern, capacity as usize)
}

fn new_card(heap: Global, new: &NewCard) -> Result<Card, Trouble> {
    let geometry = Geometry::new(new.block_size, new.blocks_per_pair, new.pairs)?;
    let bytes = card_bytes(heap, new, geometry)?;
    Ok(Card::new(new.kind, geometry, bytes))
}

impl Session {
    // A session without cards.
    pub(crate) fn new(heap: Global) -> Session {
        Session {
            heap,
            cards: BTreeMap::new(heap),
        }
    }

    // Makes a card.
    fn add(&mut self, name: &[u8], new: &NewCard) -> Result<Record, Trouble> {
        if self.cards.contains_key(name) {
            return Err(Why::NameTaken.into());
        }
        let card = new_card(self.heap, new)?;
        let name = name.to_vec(self.heap)?;
        let held = Box::new(self.heap, Held::new(card))?;
        self.cards.insert(name, held)?;
        Ok(Record::Done)
    }

    // Has the card of a name carry out an order.
    fn order(&mut self, name: &[u8], order: Order) -> Result<Record, Trouble> {
        let Some(held) = self.cards.get_mut(name) else {
            return Err(Why::NoSuchName.into());
        };
        held.obey(self.heap, order)
    }

    // Carries out a command.
    fn carry_out(&mut self, command: Command) -> Result<Record, Trouble> {
        let Command { name, asked } = command;
        match asked {
            Asked::New(new) => self.add(name, &new),
            Asked::Order(order) => self.order(name, order),
        }
    }

    // Reads the command of a line, of which the first word and those behind it are given, and carries it out.
    pub(crate) fn obey(
        &mut self,
        rt: &HostRuntime,
        verb: &[u8],
        words: Words,
    ) -> Result<Record, Trouble> {
        self.carry_out(parse(rt, verb, words)?)
    }
}
