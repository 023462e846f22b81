// The call list of document 01: what its lines do and print.
#![tactic(auto)]

pub mod list;
pub mod run;
pub mod say;
