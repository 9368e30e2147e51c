//! From checked factors to one nameless task for each agent, with the bytes of what the agents show each other
//! (`specs/`).
#![tactic(auto)]

mod closed;
mod common;
mod numbers;
mod task;
mod team;
mod team_tasks;

pub use closed::closed_view;
pub use team::{StepsList, Tasks, Views};
pub use team_tasks::tasks;
