//! What the agents of a team find: their files are grounded and split into tasks, the agents take turns on one thread until
//! all have ended, or do the events of a schedule, and what they found is told by names; and machines for agents that
//! others let search.
#![tactic(auto)]

mod machines;
mod refusal;
mod replaying;
mod solving;
mod telling;

pub use machines::{are_within_limits, ended, machines_of};
pub use mp_solutions::Solution;
pub use refusal::ReplayRefusal;
pub use replaying::replay;
pub use solving::solve;
pub use telling::{ToldAnswer, told};
