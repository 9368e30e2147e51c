//! Hints on actions that cannot be taken: those without instances, and bindings without a cost.
#![tactic(auto)]

mod hints;
mod lacking;
mod objects;

pub use hints::explain_actions;
