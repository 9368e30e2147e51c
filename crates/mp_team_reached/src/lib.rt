//! The facts that the relaxed problem of a team reaches, in which no action makes anything false.
#![tactic(auto)]

mod marks;
mod numbers;
mod start;

pub use marks::{Part, is_marked, part_of, private_mark, public_mark, settle};
pub use numbers::numbers_of;
pub use start::start_marks;
