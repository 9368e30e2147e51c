//! Which own actions of a task apply in a state, and which other agents' public actions may, without a look at each.
#![tactic(auto)]

mod building;
mod far;
mod index;

pub use far::FarIndex;
pub use index::ActionIndex;
