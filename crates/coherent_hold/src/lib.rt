// The coherent-set gate of a reader: CoherentHold of presentation.rs of the source.
#![tactic(auto)]

mod gate;
mod hold;
mod items;
mod words;

pub use gate::Gated;
pub use hold::{CoherentHold, Members};
pub use items::{Change, CoherentSetEnd, Item, Kind, Member};
