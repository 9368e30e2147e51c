//! Walks back of plans over the agents of a team, in every world that a legal schedule leads to
//! (`specs/`).
//!
//! Messages of a team: each goes to another agent of it, and none is found to be a bad one, wherever the agents' entries
//! stand in a log (`specs/`).
//!
//! The verdicts of agent 1 and the answers of a team are right, whatever the order of events.
//!
//! That the run of a team goes on until all agents have ended. Each law is the contract of a function that does nothing.
#![tactic(auto)]

mod good;
mod messages;
mod rounds;
mod shares;
mod verdict_laws;
mod walks;

pub use good::no_message_is_bad;
pub use messages::{messages_go_to_others, no_receipt_is_bad};
pub use rounds::{
    round_robin_takes_few_rounds, rounds_do_something, searches_end_without_expansions,
    searches_take_few_rounds, snapshots_are_events, teams_are_not_stuck,
};
pub use shares::shares_are_the_plan;
pub use verdict_laws::{answers_are_right, one_agent_is_spent_early, verdicts_are_right};
pub use walks::{entries_stay_few, walks_are_sound};
