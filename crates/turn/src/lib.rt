// The subscriber turn of presentation.rs of the source: items and the offers that they make, and the rows of a turn.
#![tactic(auto)]

pub mod items;
pub mod rows;
pub mod take;
