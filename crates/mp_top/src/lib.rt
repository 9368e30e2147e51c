//! The top call: words in, files read, a team's plan searched, checked, certified or audited, a text printed.
#![tactic(auto)]

mod answering;
mod asked;
mod by_workers;
mod checking;
mod command;
mod deciding;
mod decision;
mod finding;
mod first;
mod first_file;
mod laws;
mod making;
mod on_one_thread;
mod on_threads;
mod optimality;
mod refusal;
mod report;
mod searching;
mod status;
mod undecided;

pub use command::{command_line, without_words};
pub use first::one_first;
pub use laws::{
    answers_are_complete, first_refusals_come, renaming_changes_no_outcome,
    traces_are_printed_again, valid_plans_are_told,
};
pub use mp_words::alone;
pub use on_one_thread::run_alone;
pub use on_threads::run;
pub use refusal::{FirstRefusal, Refusal};
pub use report::Report;
pub use status::Status;
pub use undecided::undecided_is_spent;
