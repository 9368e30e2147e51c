//! What is so of snapshots in every world that a legal schedule leads to.
//!
//! The verdict of agent 1 is that of the rule on one world that a legal schedule leads to.
#![tactic(auto)]

mod cuts;
mod snapshots;

pub use cuts::{cuts_are_worlds, verdicts_are_of_one_world, verdicts_have_no_number};
pub use snapshots::{
    agent_1_alone_ends_the_search, messages_of_snapshots_are_not_strange, snapshots_are_sound,
    snapshots_are_sound_in_all_runs, tasks_that_agree_are_of_a_team,
    verdicts_are_on_snapshots_that_are_over,
};
