//! The words of the command line: what they ask for.
#![tactic(auto)]

mod asked;
mod numbers;
mod read;
mod request;
mod threads;

pub use asked::{Audit, Certify, Check, Choice, Make, Replay, Request, Solve};
pub use request::read_request;
pub use threads::alone;
