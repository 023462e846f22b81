// Lists of a fixed room that are `Copy`: the kit's `ArrayVec` is not, since its view forgets what stands in the free places.
#![tactic(auto)]

mod list;
mod traits;

pub use list::{Blank, FixedList, Keep};
