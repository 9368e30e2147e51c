//! Runs of events and plans of transition systems (`specs/`), and their laws.
#![tactic(auto)]

mod laws;
mod takes;

pub use laws::{
    costs_of_appended_plans, runs_have_what_steps_keep, runs_of_appended_lists,
    simulations_keep_plans,
};
pub use takes::{Takes, take_front};
