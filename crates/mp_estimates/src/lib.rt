//! Costs of what may be out of reach (`specs/`): their order, the lesser and the greater of two, their laws, and numbers that stand
//! for them in a search that lowers these.
#![tactic(auto)]

mod laws;

pub use laws::{costs_are_ordered, lesser_and_greater_are_bounds};
