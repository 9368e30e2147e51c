//! Lists of different rows of words, found by their hashes.
#![tactic(auto)]

mod chains;
mod hashes;
mod rows;

pub use rows::Rows;
