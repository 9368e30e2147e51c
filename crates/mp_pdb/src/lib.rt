//! Pattern databases of projected problems (`specs/`).
#![tactic(auto)]

mod laws;
mod moves;
mod operators;
mod pattern;
mod pdb;
mod queue;
mod table;

pub use laws::{
    abstract_distances_are_least_costs, distances_are_least_costs, plans_are_abstract_plans,
};
pub use pdb::Pdb;
