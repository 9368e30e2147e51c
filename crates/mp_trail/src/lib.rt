//! How a plan is walked back within one agent of a team, and the share that the agent has of it.
#![tactic(auto)]

mod laws;
mod steps;
mod trail;

pub use laws::{times_of_share, walk_counts, walk_follows_origins};
pub use steps::{Noted, Share, Timed, Walked};
pub use trail::Trail;
