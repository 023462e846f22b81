// The page of all groups and readers (document 02, U5), read from a history's store into a lent list.
#![tactic(auto)]

pub mod fill;
mod row;
