//! What each agent did and what went between them, in one order.

use mp_list::{Copied, List, OutOfMemory};
use mp_sets::Agent;

/// The bytes of a message or of a text.
pub type Bytes = List<u8>;

/// The text of what each agent sees, for each agent in their order.
pub type Views = List<Bytes>;

/// Entries in the order in which they came, each with memory of its own.
pub type Entries = List<Entry>;

/// Events in the order in which they came.
pub type EventList = List<Event>;

/// One step of one agent.
#[derive(Clone, Copy, Debug, PartialEq, Eq, PartialOrd, Ord, Hash)]
pub enum Event {
    /// An agent expands one state.
    Expand(Agent),
    /// An agent takes the oldest message that is under way to it from another.
    Take {
        /// The agent that takes it.
        by: Agent,
        /// The agent that sent it.
        from: Agent,
    },
    /// Agent 1 starts a snapshot.
    Start,
}

/// What an agent does by itself.
#[derive(Clone, Copy, Debug, PartialEq, Eq, PartialOrd, Ord, Hash)]
pub enum Kind {
    /// It expands one state.
    Expand,
    /// It starts a snapshot.
    Start,
}

/// One entry of a log.
#[derive(Debug, PartialEq, Eq, Hash, Drop)]
pub enum Entry {
    /// An agent expanded a state or started a snapshot.
    Act(Agent, Kind),
    /// A message was put.
    Put {
        /// The sender.
        from: Agent,
        /// The receiver.
        to: Agent,
        /// The message.
        bytes: Bytes,
    },
    /// A message was taken.
    Took {
        /// The receiver.
        by: Agent,
        /// The sender.
        from: Agent,
        /// The message.
        bytes: Bytes,
    },
}

impl Copied for Event {
    fn copy(&self) -> Result<Event, OutOfMemory> {
        Ok(*self)
    }
}

impl Copied for Entry {
    fn copy(&self) -> Result<Entry, OutOfMemory> {
        Ok(match self {
            Entry::Act(agent, kind) => Entry::Act(*agent, *kind),
            Entry::Put { from, to, bytes } => Entry::Put {
                from: *from,
                to: *to,
                bytes: bytes.copy()?,
            },
            Entry::Took { by, from, bytes } => Entry::Took {
                by: *by,
                from: *from,
                bytes: bytes.copy()?,
            },
        })
    }
}
