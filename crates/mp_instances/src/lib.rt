//! The instances of a factor's actions, in numbers, with their costs and the counts that are
//! limited.
#![tactic(auto)]

mod choices;
mod costs;
mod gathered;
mod grounding;
mod links;
mod refusal;
mod turns;
mod values;

pub use grounding::instances;
pub use refusal::InstanceRefusal;
