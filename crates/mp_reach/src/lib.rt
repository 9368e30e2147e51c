//! Best-first search by several searchers over any graph, and the graph of a team (`specs/`).
#![tactic(auto)]

mod changes;
mod example;
mod laws;

pub use changes::{a_start_is_explored, changes_keep_what_is_explored};
pub use example::worked_team_begins_explored;
pub use laws::{
    nothing_is_left_out, plans_have_ways, plans_leave_a_witness, values_are_bounds_of_ways,
    ways_are_plans,
};
