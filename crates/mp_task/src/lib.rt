//! The nameless task of one agent, its plans, and what a heuristic promises (`specs/`).
#![tactic(auto)]

mod act;
mod agreement;
mod heuristic;
mod laws;
mod task;

pub use act::{Act, ActList, Far, FarList};
pub use agreement::{far_lists_are_exact, worked_teams_agree, worked_teams_need_their_parts};
pub use heuristic::{Blind, Heuristic};
pub use laws::{
    plans_are_seen_as_plans, steps_lead_to_joint_states, values_are_bounds_for_the_team,
};
pub use task::{Flags, Task, TaskList};
