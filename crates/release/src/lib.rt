// The release: in each group, in the order of the GUIDs, repetition by repetition until it stops there. The sets are the store's and the list
// of what is handed out the call's, so no struct holds both; the steps take them side by side, and a clause of
// each says that with what is still pending they take 256 places at most.
#![tactic(auto)]

mod commit;
mod group;
mod left;
mod order;
pub mod release;
mod rows;
mod stale;
