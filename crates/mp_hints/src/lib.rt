//! What all explanations need: words as text, the nearest known spelling, and lines of a file with a mark below.
#![tactic(auto)]

mod near;
mod quoted;
mod text;

pub use near::nearest;
pub use quoted::{line_at, quote};
pub use text::{Shown, text_of};
