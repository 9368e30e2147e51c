//! What the agents of a team show each other, as text.
#![tactic(auto)]

mod views;

pub use views::explain_views;
