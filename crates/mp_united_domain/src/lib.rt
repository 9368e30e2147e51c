//! The domain of the united problem of a team, as classical planners read it.
#![tactic(auto)]

mod actions;
mod domain;
mod predicates;

pub use domain::united_domain;
