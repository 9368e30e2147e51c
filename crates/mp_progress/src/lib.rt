//! A team that takes turns on one thread, and lines that tell how far it is.
#![tactic(auto)]

mod line;
mod progress;
mod rounds;
mod standing;

pub use line::{push_cost, push_number};
pub use rounds::take_turns;
pub use standing::{Standing, lesser, standing_of};
