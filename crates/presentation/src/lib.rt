// The subscriber turn: GroupOrdering of presentation.rs of the source.
#![tactic(auto)]

pub mod ordering;
