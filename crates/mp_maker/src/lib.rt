//! Delivery problems: teams of any size whose members hand a box on, made from a number alone.
#![tactic(auto)]

mod family;
mod problem;
mod write;

pub use family::{TextList, delivery};
