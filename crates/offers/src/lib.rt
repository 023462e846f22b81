// Offers, heartbeats and gaps of the history: what they change in its store, and what they answer.
#![tactic(auto)]

mod admit;
pub mod gap;
mod hear;
pub mod heartbeat;
mod join;
pub mod offer;
mod sender;
