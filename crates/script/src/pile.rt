// At most two layers over a card.
ghost use Rattle.std.specs.Prelude.{◌<◌, IsOkAnd};
ghost use Rattle.medium.specs.Meaning.{Sound};
ghost use Rattle.script.specs.Cards.{card_medium};
ghost use Rattle.piles.specs.Layered.{layer_meaning};
ghost use Rattle.piles.specs.Shown.{IsBlock};

use crate::card::Card;
use crate::trouble::Trouble;
use medium::{Fault, Medium};
use notation::Why;
use piles::{BlockState, Layer, Layered, block_below, mark};

// What is asked of a medium, whichever it is. A closure cannot be called with media of more than one type.
pub(crate) trait Step {
    type Answer;

    fn run<M: Medium>(self, medium: &mut M) -> Self::Answer;
}

// Asks it of a medium behind a layer, or none. The outer layer is laid here, over any medium: the borrow checker does not
// cover a layer that is laid over a layer of a lent card.
fn run_behind<M: Medium, S: Step>(layer: Option<Layer>, below: &mut M, step: S) -> S::Answer {
    step.run(&mut Layered::new(layer, below))
}

// The layers of a pile, without the card.
#[derive(Clone, Copy)]
pub(crate) struct Layers {
    inner: Option<Layer>,
    outer: Option<Layer>,
}

impl Layers {
    pub(crate) fn none() -> Layers {
        Layers {
            inner: None,
            outer: None,
        }
    }

    // Lays one layer more over those that there are.
    pub(crate) fn add(&mut self, layer: Layer) -> Result<(), Why> {
        match (self.inner, self.outer) {
            (None, _) => self.inner = Some(layer),
            (_, None) => self.outer = Some(layer),
            _ => return Err(Why::TooManyLayers),
        }
        Ok(())
    }

    // Asks something of a card behind the layers.
    pub(crate) fn run<S: Step>(self, card: &mut Card, step: S) -> S::Answer {
        run_behind(
            self.outer,
            &mut Layered::new(self.inner, card.medium()),
            step,
        )
    }

    // The lock and the lives of a block, as the layers show them.
    pub(crate) fn block(self, card: &Card, block: u32) -> Result<BlockState, Fault>
        ensures { Sound (card_medium card.now) → block < (layer_meaning self.outer (layer_meaning self.inner (card_medium card.now))).blocks → IsOkAnd result (IsBlock (layer_meaning self.outer (layer_meaning self.inner (card_medium card.now))) block) }
    {
        let below = block_below(self.outer, block);
        let own = card.block(block_below(self.inner, below))?;
        Ok(own.behind(self.inner, below).behind(self.outer, block))
    }

    // Marks a block of the topmost fence, or clears its mark.
    pub(crate) fn mark(&mut self, card: &mut Card, block: u32, on: bool) -> Result<(), Trouble> {
        if let Some(Layer::Fence(marks)) = &mut self.outer {
            mark(
                &mut Layered::new(self.inner, card.medium()),
                marks,
                block,
                on,
            )?;
            return Ok(());
        }
        if let Some(Layer::Fence(marks)) = &mut self.inner {
            mark(&mut card.medium(), marks, block, on)?;
            return Ok(());
        }
        Err(Why::NoFence.into())
    }
}
