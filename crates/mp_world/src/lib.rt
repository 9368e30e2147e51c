//! A team that runs, as definitions: what its agents have done, what is under way between them, and what an event
//! changes.
#![tactic(auto)]

mod answer;
mod laws;
mod outcome;

pub use answer::Answer;
pub use laws::{
    events_change_one_agent, logs_have_runs, round_robin_is_one_run, runs_have_logs,
    runs_have_what_events_keep,
};
pub use outcome::{Outcome, ShareList};
