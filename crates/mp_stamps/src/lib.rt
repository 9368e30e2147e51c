//! What agents did, with stamps, and the one log of all.
#![tactic(auto)]

mod merging;
mod moving;
mod places;
mod stamped;
#[cfg(test)]
mod tests;

pub use merging::merge_stamped;
pub use moving::merge_moved;
pub use stamped::{Stamped, StampedList, StampedLists};
