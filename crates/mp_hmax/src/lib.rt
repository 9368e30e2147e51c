//! The heuristic hmax (`specs/Hmax.antt`).
#![tactic(auto)]

mod hmax;

pub use hmax::Hmax;
pub use mp_relaxed::values_are_the_greatest;
