//! What the answers of a team mean for its files: definitions, and the law that they are right (`specs/`).
#![tactic(auto)]

mod laws;
mod solution;

pub use laws::{answers_are_right_for_files, searches_are_left_undecided};
pub use solution::Solution;
