//! Why a turn may sign nothing.

use mp_messages::Entries;
use mp_sets::Agent;

/// What a party signs in one step: what it did, and the messages that it puts.
pub type Batch = Entries;

/// Why a turn signed nothing. The batch comes back.
#[derive(Debug, Drop)]
pub enum TurnRefusal {
    /// No memory was left, or no stamp.
    OutOfMemory(Batch),
    /// This agent was halted.
    Halted(Agent, Batch),
}
