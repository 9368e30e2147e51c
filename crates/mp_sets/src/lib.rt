//! Agents, tags, lists of numbers that rise, and sets of numbers below a size.
#![tactic(auto)]

mod agent;
mod bits;
mod compared;
mod fact_list;
mod laws;
mod tag;
mod view;
mod words;

pub use agent::Agent;
pub use bits::Bits;
pub use fact_list::FactList;
pub use laws::equal_sets_are_one;
pub use tag::{Tag, Tags};
pub use view::BitsView;
