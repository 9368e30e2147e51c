//! What is told of a team whose files `maplan` accepts: a table with a row for each agent, and hints on what may be wrong.
#![tactic(auto)]

mod goals;
mod metrics;
mod team;

pub use team::explain_team;
