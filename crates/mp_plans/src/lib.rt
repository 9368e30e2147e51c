//! Plans as texts: read from them, and what is found of a plan or of a made problem, told.
#![tactic(auto)]

mod field;
mod laws;
mod line;
mod made;
mod name;
mod order;
mod packed;
mod plan;
mod verdict;
mod write;

pub use laws::written_plans_are_read_again;
pub use made::{made_text, shown_text};
pub use packed::steps_text;
pub use plan::{PlanText, read_plan};
pub use verdict::verdict_text;
