//! What a run of a team's agents did: the outcome that `maplan` prints, and behind it a table of what each agent did.
#![tactic(auto)]

mod bound;
mod report;
mod running;
mod table;
mod trace;
mod traffic;

pub use running::run_team;
