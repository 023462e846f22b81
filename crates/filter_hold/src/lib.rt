// What a reliable reader's TIME_BASED_FILTER held back: TbfHold of presentation.rs of the source.
#![tactic(auto)]

pub mod tbf;
