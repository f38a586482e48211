// Switches that are moved through layers.
ghost use Rattle.medium.specs.Switches.{OnlySwitched};

use medium::Medium;

// A turn of a medium's switches. What holds the medium lends it for one turn, so that nobody keeps a hold of it.
// A slot's switches have a trait of their own: one for both wants an impl for every medium and one for every slot.
pub trait Switch<M: Medium> {
    // what a turn does: the switch and the medium before it, the medium and the switch after it
    ghost turns: { Self → M → M → Self → Type 0 };

    // Moves nothing but lock and supply.
    fn turn(&mut self, medium: &mut M)
        ensures turns { turns self.old medium.old medium.new self.new }
        ensures only { OnlySwitched (M.meaning medium.old) (M.meaning medium.new) };
}

// A layer: a medium over another, which it holds and lends to nobody.
pub trait Layer: Medium {
    type Below: Medium;

    // the medium below
    ghost below: { Self → Self.Below };

    // what of a layer, before and after, is the same when switches turn below
    ghost stays: { Self → Self → Type 0 };

    // Moves switches of the medium below.
    fn turn_below<S: Switch<Self::Below>>(&mut self, switch: &mut S)
        ensures turns { S.Switch.turns switch.old (below self.old) (below self.new) switch.new }
        ensures only { OnlySwitched (Self.meaning self.old) (Self.meaning self.new) }
        ensures stays { stays self.old self.new };
}

// A switch of the medium below a layer as a switch of the layer; one for each layer reaches through a pile.
#[derive(Drop)]
pub struct Through<S> {
    pub switch: S,
}

impl<L: Layer, S: Switch<L::Below>> Switch<L> for Through<S> {
    ghost turns = { λ s l l' t. S.Switch.turns s.switch (L.below l) (L.below l') t.switch × L.stays l l' };

    fn turn(&mut self, medium: &mut L) {
        medium.turn_below(&mut self.switch);
    }
}
