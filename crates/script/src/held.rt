// A card of a session, with its layers and its last buffer.
use crate::card::Card;
use crate::command::Order;
use crate::pile::Layers;
use crate::record::{Record, ShownBytes, ShownMedium};
use crate::steps::{AskSize, Take, Write, Written};
use crate::trouble::Trouble;
use crate::writing::BlockBuffer;
use notation::Why;
use std::alloc::Global;

// What a session holds under a name.
#[derive(Drop)]
pub(crate) struct Held {
    card: Card,
    layers: Layers,
    buffer: Option<BlockBuffer>,
}

impl Held {
    // A card without layers.
    pub(crate) fn new(card: Card) -> Held {
        Held {
            card,
            layers: Layers::none(),
            buffer: None,
        }
    }

    // Has the writer make a call, and keeps its buffer.
    fn write(&mut self, step: Write) -> Result<Record, Trouble> {
        let Written { answer, buffer } = self.layers.run(&mut self.card, step)?;
        self.buffer = Some(buffer);
        Ok(Record::Counted(answer?))
    }

    // What the medium means, through the layers.
    fn shown(&mut self, heap: Global) -> Result<Record, Trouble> {
        let size = self.layers.run(&mut self.card, AskSize);
        let mut blocks = Vec::new(heap);
        for block in 0..size.blocks {
            blocks.push(self.layers.block(&self.card, block)?)?;
        }
        Ok(Record::Medium(ShownMedium {
            size,
            supply: self.card.has_supply(),
            blocks,
        }))
    }

    // The buffer that the last call of the writer left.
    fn last_buffer(&self, heap: Global) -> Result<Record, Trouble> {
        let Some(buffer) = &self.buffer else {
            return Err(Why::NoBuffer.into());
        };
        Ok(Record::Bytes(buffer.shown(heap)?))
    }

    // Carries out an order. Those that tell nothing but a fault end in the plain `ok`.
    pub(crate) fn obey(&mut self, heap: Global, order: Order) -> Result<Record, Trouble> {
        match order {
            Order::Card(call) => return self.card.call(call),
            Order::Layer(layer) => self.layers.add(layer)?,
            Order::Mark { block, on } => self.layers.mark(&mut self.card, block, on)?,
            Order::Write { call, room } => return self.write(Write { heap, call, room }),
            Order::Buffer => return self.last_buffer(heap),
            Order::Take { place, length } => {
                let step = Take {
                    heap,
                    place,
                    length,
                };
                let bytes = self.layers.run(&mut self.card, step)?;
                let untouched = 0;
                return Ok(Record::Bytes(ShownBytes { bytes, untouched }));
            }
            Order::Job(job) => self.layers.run(&mut self.card, job)?,
            Order::Show => return self.shown(heap),
        }
        Ok(Record::Done)
    }
}
