//! The files of a team, read as the factors of its agents: an agent's domain and then its problem, one agent after
//! another (`specs/`).
#![tactic(auto)]

mod appending;
mod fetched;
mod first;
mod measured;
mod refusal;
mod said;
mod shapes;
mod team;

pub use fetched::{AgentFiles, AgentTexts};
pub use first::{one_first, one_team};
pub use refusal::{Fault, FileOf, Refusal};
pub use team::{read_team, read_texts};
