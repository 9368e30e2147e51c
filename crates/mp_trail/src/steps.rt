//! Actions of a plan, as it is walked back and as it runs.

use mp_list::{Copied, List, OutOfMemory};
use mp_sets::Agent;

/// An own action that a walk came by.
#[derive(Clone, Copy, Debug, PartialEq, Eq)]
pub struct Noted {
    /// The action's number.
    pub action: u32,
    /// How many actions come after it on the plan.
    pub back: u64,
}

/// Where a walk within one agent ends.
#[derive(Clone, Copy, Debug, PartialEq, Eq)]
pub enum Walked {
    /// At the initial state.
    Root {
        /// How many actions the plan has.
        length: u64,
    },
    /// At a state that another agent sent, where the walk goes on.
    Hop {
        /// The sender.
        agent: Agent,
        /// The sent number that the state has there.
        sent: u64,
        /// How many actions come after that state on the plan.
        back: u64,
    },
}

/// An own action of a plan.
#[derive(Clone, Copy, Debug, PartialEq, Eq)]
pub struct Timed {
    /// Its place on the plan, counted from 1.
    pub time: u64,
    /// The action's number.
    pub action: u32,
}

/// An agent's own actions of a plan, by time.
pub type Share = List<Timed>;

impl Copied for Timed {
    fn copy(&self) -> Result<Timed, OutOfMemory> {
        Ok(*self)
    }
}
