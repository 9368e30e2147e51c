//! Why an event does not happen.

use mp_sets::Agent;
use thiserror::Error;

/// Why an event did not happen.
#[derive(Clone, Copy, Debug, PartialEq, Eq, Error)]
pub enum EventRefusal {
    /// Its agent may not do it now.
    #[error("not now")]
    NotNow(Agent),
    /// There is no message that it could take.
    #[error("no message")]
    Empty {
        /// The agent that would take it.
        by: Agent,
        /// The agent that would have sent it.
        from: Agent,
    },
    /// No memory was left.
    #[error("out of memory")]
    OutOfMemory,
}
