//! The concurrent steps of a plan: which actions may be done at the same time, and a chain that shows that no packing of
//! the plan has fewer steps.
#![tactic(auto)]

mod facts;
mod group;
mod laws;
mod level;
mod link;
mod mark;
mod packed;
mod plan;
mod put;
mod role;
mod worked;

pub use group::{StepLists, Times};
pub use laws::{
    chains_keep_steps_apart, numbered_actions_stand_for_plans, orders_of_steps_solve,
    steps_are_a_packing,
};
pub use plan::{PackRefusal, Packed, pack};
pub use worked::{worked_chains, worked_steps};
