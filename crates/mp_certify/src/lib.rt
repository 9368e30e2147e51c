//! Certificates that no plan is cheaper than the one that a team has found: of a run that has ended, at its last cut (`specs/`).
#![tactic(auto)]

mod bounds;
mod facts;
mod key;
mod laws;
mod making;
mod team;

pub use laws::cheapest_entries_are_the_latest;
pub use making::certificate;
