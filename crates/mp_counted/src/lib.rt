//! Machines of a team whose heuristics tell how often they are asked.
#![tactic(auto)]

mod counted;
mod machines;

pub use counted::{Count, Counted};
pub use machines::counted_machines;
