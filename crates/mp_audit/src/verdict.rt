//! What an audit finds.

use mp_sets::Agent;

/// What an audit finds of a certificate. Entries are counted from 1.
#[derive(Clone, Copy, Debug, PartialEq, Eq)]
pub enum AuditVerdict {
    /// The bounds show that no plan costs less than the certificate says.
    Holds,
    /// The entry of this number has the agent and the joint state of an earlier one.
    Double(u64),
    /// The bound of this agent's start is below the cost.
    Start(Agent),
    /// In the joint state of the entry of this number all goals are true, so that nothing is to be paid.
    Goal(u64),
    /// An action leads on from an entry too cheaply: what it costs, and the bound of the state after it in the search of
    /// an agent, are below the entry's bound together.
    Step {
        /// The number of the entry.
        entry: u64,
        /// The number of the action among those of the entry's agent, counted from 0.
        action: u32,
        /// The agent in whose search the state after it stands.
        agent: Agent,
    },
}
