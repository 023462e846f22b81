// A line of document 01's call list, and what it spells.
#![tactic(auto)]

pub mod field;
pub mod line;
pub mod parse;
