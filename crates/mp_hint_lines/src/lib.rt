//! Lines of hints on a team's files, each with its file and place.
#![tactic(auto)]

mod atoms;
mod files;
mod line;
mod types;

pub use atoms::push_atom;
pub use files::{FileNames, files_of};
pub use line::{begin_hint, push_place};
pub use types::push_types;
