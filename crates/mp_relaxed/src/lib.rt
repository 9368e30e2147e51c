//! The delete relaxation of a projected problem, at costs that may change, and the values of its facts for a state
//! (`specs/`), and values of states that are kept: what the heuristics hmax and LM-cut share.
#![tactic(auto)]

mod kept;
mod laws;
mod memo;
mod places;
mod queue;
mod relaxed;
mod rows;
mod search;
mod users;
mod values;

pub use laws::values_are_the_greatest;
pub use memo::Memo;
pub use relaxed::Relaxed;
pub use values::Search;
