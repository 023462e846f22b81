// GUIDs: sixteen bytes and their order, and a GUID as two words.
#![tactic(auto)]

pub mod guid;
pub mod key;
