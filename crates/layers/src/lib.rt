// Layers: a medium made of another medium, which it holds by value.
//
// A window shows a run of the blocks below, counted from 0. A fence has a mark for each block, and a marked block
// is locked. Each is a medium for every medium below, proved once from the trait's contracts alone, so any pile of
// the two over any medium is a medium.
//
// A layer gives the medium below back by `into_below`. As long as it holds it nobody else does: the switches of the
// medium below are moved through the layer, by `turn_below` and a `Switch`.
#![tactic(auto)]

mod fence;
mod marks;
mod switch;
mod window;

pub use fence::Fence;
pub use marks::Marks;
pub use switch::{Layer, Switch, Through};
pub use window::Window;
