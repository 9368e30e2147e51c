//! What is so of the states that the agents of a team keep and send, in every world that a legal
//! schedule leads to (`specs/`).
//!
//! Why an optimal plan is never lost: what the agents of a team have found stays explored, whatever the order of
//! expansions, sends and receipts (`specs/`).
#![tactic(auto)]

mod explored_laws;
mod paths;
mod room;
mod states;

pub use explored_laws::{
    estimates_and_flags_are_right, expansions_are_not_wasted, no_state_is_left_out,
    plans_leave_a_witness_in_runs, teams_stay_explored,
};
pub use paths::{entries_are_reached, walks_back_end, walks_go_along_paths};
pub use room::{costs_stay_small, values_are_small};
pub use states::{
    events_keep_what_was_told, sent_states_are_good, states_are_joint_states, states_stay_sound,
};
