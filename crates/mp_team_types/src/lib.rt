//! Hints on types that a factor uses and does not declare.
#![tactic(auto)]

mod hints;
mod uses;

pub use hints::explain_types;
