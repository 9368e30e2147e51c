//! Logs of a team: what is done in parts, logs made of parts, and logs of one schedule (`specs/`).
#![tactic(auto)]

mod laws;

pub use laws::{
    bad_receipts_are_left_out, logs_of_one_schedule_are_alike, parts_make_a_log,
    schedules_are_done_in_parts, what_is_done_goes_on,
};
