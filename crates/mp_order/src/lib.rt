//! The order in which a plan of a team may be taken (`specs/`), and its laws.
#![tactic(auto)]

mod example;
mod laws;
mod parts;

pub use example::{worked_plan_is_put_in_order, worked_plans_are_out_of_order};
pub use laws::{ordered_plans_solve, plans_can_be_put_in_order};
pub use parts::{blocks_concern_their_agents, blocks_lead, closing_groups_lead};
