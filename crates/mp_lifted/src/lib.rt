//! Factors in numbers, before grounding: objects, predicates and functions by their places in the files.
//!
//! Atoms of a factor in numbers where objects stand for the parameters, and which of them are true
//! at the start.
#![tactic(auto)]

mod bindings;
mod bound;
mod bound_atoms;
mod lifted;
mod start;

pub use bindings::ActionBindingList;
pub use bound::BoundAction;
pub use bound_atoms::{add_objects, is_among_at, is_private, object_at};
pub use lifted::{
    Amount, GroundAtom, GroundValue, LiftedAction, LiftedAtom, LiftedFactor, LiftedTerm,
};
pub use start::StartFacts;
