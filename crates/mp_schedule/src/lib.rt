//! A team that runs on one thread: its machines, the messages under way between them, and a log. What has happened is
//! one run of the team, which keeps the laws of such runs (`specs/Laws.antt`).
#![tactic(auto)]

mod found;
mod laws;
mod mail;
mod memory;
mod refusal;
mod rounds;
mod steps;
mod team;

pub use found::outcome;
pub use refusal::EventRefusal;
pub use team::World;
