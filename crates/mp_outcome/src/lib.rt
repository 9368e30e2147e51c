//! The text of what a team found, by the names of its files.
#![tactic(auto)]

mod named;
mod text;

pub use text::named_text;
