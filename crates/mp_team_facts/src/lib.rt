//! What the agents of a team show each other before grounding, their grounded factors, and the public facts of the team by
//! the numbers that messages have.
#![tactic(auto)]

mod facts;
mod grounds;
mod shown;

pub use facts::{explain_facts, public_facts};
pub use grounds::{agent_at, grounds_of};
pub use shown::shown_by_all;
