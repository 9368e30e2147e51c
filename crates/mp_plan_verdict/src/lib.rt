//! What is found of a plan by names: whether it solves the united problem, and at which cost, or what is wrong with
//! it first (`specs/`).
#![tactic(auto)]

mod laws;
mod verdict;
mod worked;

pub use laws::verdicts_are_right;
pub use verdict::CheckVerdict;
pub use worked::{worked_goals, worked_instances, worked_steps};
