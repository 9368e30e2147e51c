//! What the words of a command line ask `maplan` for, or which of them it refuses.
#![tactic(auto)]

mod accepted;
mod commands;
mod fault;
mod options;
mod refused;
mod scan;
mod told;

pub use commands::{Command, command_of, usage_of};
pub use told::{WordsTold, explain_words};
