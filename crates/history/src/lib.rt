// The subscriber's group history: group_order.rs of the source, by the rules of crate `rules`.
#![tactic(auto)]

pub mod order;
