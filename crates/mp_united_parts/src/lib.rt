//! What the domain and the problem of a united problem have in common: atoms, costs, constants and sections.
#![tactic(auto)]

mod atoms;
mod constants;
mod costs;
mod section;

pub use atoms::{push_amount, push_atom, push_has_value, push_literals, push_negation};
pub use constants::push_constants;
pub use costs::{
    has_any_metric, has_metric, is_total_cost, lacks_cost, push_cost, push_cost_condition,
};
pub use section::push_section;
