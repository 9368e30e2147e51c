//! The united problem in names: agents, facts, steps and plans, and what it means that a plan solves
//! (`specs/`). Nothing here is numbered and nothing is grounded.
#![tactic(auto)]

mod fact;
mod laws;
mod plan;

pub use fact::{NamedFact, SignedFact, SignedFactList};
pub use laws::{worked_groundings, worked_plans, worked_predicates};
pub use mp_sets::Agent;
pub use plan::{JointPlan, Names, PlanStep};
