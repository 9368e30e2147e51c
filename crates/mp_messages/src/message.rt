//! The seven kinds of message.

use mp_list::{Copied, OutOfMemory};
use mp_sets::{FactList, Tags};

/// A state that its sender reached, for the other agents to go on from.
#[derive(Debug, PartialEq, Eq, Hash)]
pub struct State {
    /// The sender's number of it, from 0 in the order of sending.
    pub sent: u64,
    /// The cost of the way to it.
    pub g: u64,
    /// The sender's heuristic value.
    pub h: u64,
    /// The public facts that are true.
    pub facts: FactList,
    /// What is told of each agent's private facts, one tag for each agent.
    pub tags: Tags,
}

/// The numbers of a state in a message.
#[derive(Clone, Copy, Debug, PartialEq, Eq)]
pub struct StateNumbers {
    /// The sender's number of it.
    pub sent: u64,
    /// The cost of the way to it.
    pub g: u64,
    /// The sender's heuristic value.
    pub h: u64,
}

impl Drop for State {
    fn drop(self) {
        let State {
            sent: _,
            g: _,
            h: _,
            facts: _,
            tags: _,
        } = self;
    }
}

/// What an agent found until a snapshot.
#[derive(Clone, Copy, Debug, PartialEq, Eq, Hash)]
pub struct Findings {
    /// The number of the snapshot, from 1.
    pub number: u64,
    /// The least sum of cost and heuristic value of an open entry, where there is one.
    pub least: Option<u64>,
    /// The least such sum of the states that were under way to the agent, where there were any.
    pub under_way: Option<u64>,
    /// The least cost of a goal entry, where there is one.
    pub goal: Option<u64>,
    /// Whether the agent has expanded as often as it may.
    pub spent: bool,
}

/// How a search ends without a plan.
#[derive(Clone, Copy, Debug, PartialEq, Eq, PartialOrd, Ord, Hash)]
pub enum EndKind {
    /// There is no plan.
    NoPlan,
    /// An agent has expanded as often as it may.
    Spent,
}

/// A message.
#[derive(Debug, PartialEq, Eq, Hash, Drop)]
pub enum Message {
    /// A state to go on from.
    State(State),
    /// The snapshot of this number begins.
    Marker(u64),
    /// What the sender found until a snapshot.
    Report(Findings),
    /// The receiver has the goal entry of the snapshot of this number, and begins to walk back from it.
    Pick(u64),
    /// The walk back goes on at the state that the receiver sent with this number.
    Trace {
        /// The receiver's number of that state.
        sent: u64,
        /// How many actions of the plan come after it.
        back: u64,
    },
    /// The walk back is over, and the plan has so many actions.
    Length(u64),
    /// The search ended without a plan.
    Done(EndKind),
}

impl Copied for State {
    fn copy(&self) -> Result<State, OutOfMemory> {
        Ok(State {
            sent: self.sent,
            g: self.g,
            h: self.h,
            facts: self.facts.copy()?,
            tags: self.tags.copy()?,
        })
    }
}
