//! What the findings of a whole snapshot decide.

use mp_sets::Agent;

/// What agent 1 says of a snapshot when it has the findings of all agents.
#[derive(Clone, Copy, Debug, PartialEq, Eq)]
pub enum Verdict {
    /// The agent's noted goal entry, of this cost, is the end of a cheapest plan.
    Proved(Agent, u64),
    /// There is no plan.
    NoPlan,
    /// The agent has expanded as often as it may, and its least open entry is least of all.
    Spent(Agent),
    /// Nothing is decided yet: the search goes on.
    Continue,
}
