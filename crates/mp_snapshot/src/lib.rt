//! Consistent snapshots of a team (Chandy and Lamport 1985): markers, what each agent found, reports, and the
//! verdict of agent 1.
#![tactic(auto)]

mod marked;
mod snapshot;
mod verdict;
mod verdict_rule;

pub use marked::{Marked, Strange};
pub use snapshot::Snapshot;
pub use verdict::Verdict;

#[cfg(test)]
mod tests;
