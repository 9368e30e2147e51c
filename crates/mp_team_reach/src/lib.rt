//! Hints on goals that the relaxed problem of a team, in which no action makes anything false, cannot reach.
#![tactic(auto)]

mod goals;
mod privates;
mod told;

pub use goals::explain_reach;
