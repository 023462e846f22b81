// The rules of the group history (group_order.rs of the source): its records, the definitions with their theorems, and functions on the group's
// numbers.
#![tactic(auto)]

pub mod call;
pub mod entry;
pub mod number;
pub mod state;
pub mod turn;
pub mod view;
