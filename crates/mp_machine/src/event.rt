//! What may happen at an agent, and how it ends.

use mp_sets::Agent;

/// What happens next at an agent.
#[derive(Clone, Copy, Debug, PartialEq, Eq)]
pub enum Local {
    /// Its least open entry is expanded.
    Expand,
    /// The oldest message of another agent is taken.
    Take(Agent),
    /// A snapshot begins.
    Start,
}

/// How far an agent is.
#[derive(Clone, Copy, Debug, PartialEq, Eq)]
pub enum Ending {
    /// It goes on.
    Going,
    /// A plan was found.
    Solved {
        /// How many actions the plan has.
        length: u64,
    },
    /// There is no plan.
    NoPlan,
    /// An agent expanded as many entries as it may.
    Spent,
}
