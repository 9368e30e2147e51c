//! What comes of the bindings of an action: how many are tried, how many meet the static preconditions, how many of these
//! have no cost; and why none meets them.
#![tactic(auto)]

mod checks;
mod counts;
mod unmet;

pub use checks::{Priced, priced_by};
pub use counts::{Counts, Scratch, Tests, count_bindings, empty_scratch};
pub use unmet::{Cause, cause_of};
