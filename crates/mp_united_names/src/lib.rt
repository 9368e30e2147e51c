//! The names that the agents of a team have in their united problem, and lines that stand once.
#![tactic(auto)]

mod agent;
mod counts;
mod dashes;
mod lines;
mod number;
mod privates;
mod team;
mod texts;

pub use agent::UnitedAgent;
pub use lines::{first_line, push_new_lines};
pub use number::push_number;
pub use team::united_agents;
pub use texts::TextSet;
