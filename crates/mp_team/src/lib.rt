//! A team whose agents are served by workers on threads.
#![tactic(auto)]

mod beginning;
mod ending;
mod joining;
mod sharing;
mod team;
mod work;
mod worker;
mod workers;

pub use ending::Finished;
pub use team::solve;
