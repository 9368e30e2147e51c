//! Texts of runs and of outcomes, and schedules that are read back from them.
#![tactic(auto)]

mod counts;
mod laws;
mod line;
mod outcome;
mod schedule;
mod trace;
mod write;

pub use laws::{logs_of_one_schedule_tell_the_same, traces_are_read_again};
pub use outcome::outcome_text;
pub use schedule::{EventLine, EventLines, LineRefusal, read_schedule};
pub use trace::trace_text;
