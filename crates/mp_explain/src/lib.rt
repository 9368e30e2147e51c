//! The commands of `maplan_explain`: what words ask `maplan` for and which it refuses, what is wrong with files, what a team
//! is, what a run did, and plans and problems in other forms.
#![tactic(auto)]

mod answer;
mod answers;
mod commands;
mod ending;
mod help;
mod naming;
mod plans;
mod reading;
mod runs;
mod teams;
mod writing;

pub use answers::explain;
pub use ending::Ending;
