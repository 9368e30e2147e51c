//! Laws of what a schedule leads to: a trace is replayed as it was, a schedule's text has at most one refused line, and
//! other private names change no message (`specs/`).
#![tactic(auto)]

mod laws;

pub use laws::{
    refused_lines_are_one, renaming_changes_no_message, tasks_are_one, traces_are_replayed,
};
