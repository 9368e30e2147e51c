//! Factors in numbers, as an agent knows them that has seen what all agents show.
#![tactic(auto)]

mod actions;
mod factors;
mod lifted_atoms;
mod members;
mod privates;
mod shown;
mod texts;
mod view;
mod vocabulary;

pub use factors::lift;
pub use privates::{PrivateNames, private_names, term_name};
pub use view::{FactTexts, OpenView};
pub use vocabulary::object_names;
