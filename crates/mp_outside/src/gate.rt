//! Gates: where a run with several agents may be held up.

use mp_sets::Agent;

/// What an agent is about to do.
#[derive(Clone, Copy, Debug, PartialEq, Eq)]
pub enum Kind3 {
    /// It expands a node.
    Expand,
    /// It takes a message.
    Take,
    /// It starts.
    Start,
    /// It signs what it did since it last signed.
    Sign,
}

/// What each agent passes before each of its acts. It promises nothing.
pub trait Gate {
    /// The agent is about to act.
    fn pass(&self, agent: Agent, kind: Kind3);
}

/// A gate that does nothing.
#[derive(Clone, Copy, Debug, PartialEq, Eq)]
pub struct NoGate;

impl Gate for NoGate {
    fn pass(&self, _agent: Agent, _kind: Kind3) {}
}
