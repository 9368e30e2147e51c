//! What is wrong with the shape of a factor's file, what the format has there, and how else to write it.
#![tactic(auto)]

mod costs;
mod lacking;
mod sections;
mod shape;
mod unsupported;
mod wanted;
mod ways;

pub use shape::{tell_shape, tell_unsupported_word};
