//! A table of a team, with a row for each agent: how many names its files declare, and how large it is once grounded.
#![tactic(auto)]

mod declared;
mod row;
mod size;

pub use row::{push_header, push_row};
pub use size::{GroundSize, size_of_factor};
