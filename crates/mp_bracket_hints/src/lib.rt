//! Where a fault of a file stands, and what is wrong with a text that is no list in brackets.
#![tactic(auto)]

mod brackets;
mod place;
mod reading;

pub use place::{FileText, push_place, quote_place, tell_place};
pub use reading::{tell_char, tell_deep, tell_trailing, tell_unbalanced};
