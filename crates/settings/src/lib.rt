// Console settings: packed in versions, the last eight saved, and what they are in nanoseconds (request U13).
#![tactic(auto)]

pub mod durations;
pub mod setting;
pub mod setting_store;
