//! The problem of the united problem of a team, as classical planners read it.
#![tactic(auto)]

mod facts;
mod objects;
mod problem;
mod types;

pub use problem::united_problem;
