//! One agent of a team of MAD-A*, a distributed A*, as a pure step: an event and bytes in, messages
//! out.
#![tactic(auto)]

mod acting;
mod event;
mod machine;
mod member;
mod outgoing;
mod refusal;
mod snapshots;
mod states;
mod tracing;
mod walking;

pub use event::{Ending, Local};
pub use machine::Machine;
pub use outgoing::{Out, Outs};
pub use refusal::{BadKind, StepRefusal};
