//! The heuristic LM-cut (`specs/Cut.antt`).
#![tactic(auto)]

mod costs;
mod laws;
mod lmcut;
mod marks;
mod near;
mod rounds;
mod sides;
mod supports;
mod zone;

pub use laws::{cuts_are_paid, rounds_end};
pub use lmcut::Cut;
