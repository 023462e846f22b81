// The fields of a line, split at each space.
#![tactic(auto)]

pub mod line;
