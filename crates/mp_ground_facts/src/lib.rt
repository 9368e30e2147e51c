//! The facts that the instances of a factor touch, with numbers.
#![tactic(auto)]

mod actions;
mod among;
mod fact;
mod handing;
mod key;
mod laws;
mod mixed;
mod numbering;
mod numbers;
mod refusal;
mod takes;
mod touched;

pub use actions::ActionNumbers;
pub use fact::GroundFact;
pub use handing::Binding;
pub use laws::facts_are_numbered_once;
pub use numbering::{goal_numbers, numbered_facts, start_numbers};
pub use numbers::FactNumbers;
pub use refusal::FactRefusal;
