//! Plans as classical planners and validators write them.
#![tactic(auto)]

mod agents;
mod ipc;

pub use agents::agents_in;
pub use ipc::ipc_text;
