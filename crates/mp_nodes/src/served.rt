//! What a worker answers.

use mp_sets::Agent;

/// Why a worker stopped serving its agents.
#[derive(Clone, Copy, Debug, PartialEq, Eq)]
pub enum Served {
    /// All its agents have ended, and what they did is signed.
    Ended,
    /// An agent of another worker was halted.
    Halted(Agent),
    /// This agent of the worker found a message to be a bad one, and was halted.
    Bad(Agent),
    /// Memory ran out for this agent of the worker, which was halted.
    OutOfMemory(Agent),
}

/// Why a node's turn ended before its end.
#[derive(Clone, Copy, Debug, PartialEq, Eq)]
pub(crate) enum Stop {
    /// This agent was halted.
    Halted(Agent),
    /// The message that was taken is a bad one.
    Bad,
    /// No memory was left.
    OutOfMemory,
}
