//! What the calls of a search answer.

ghost use Rattle.std.specs.Prelude.{◌≡◌};
ghost use Rattle.mp_search.specs.declared.answer.ExpandRefusal.TheVariants as expand_refusals;
ghost use Rattle.mp_search.specs.declared.answer.ReceiveRefusal.TheVariants as receive_refusals;

use mp_list::{List, OutOfMemory};
use mp_messages::State;
use mp_sets::Agent;
use thiserror::Error;

/// Agents, by rising number where a state goes to them.
pub type AgentList = List<Agent>;

/// A state that goes out, and the agents that it goes to.
#[derive(Drop)]
pub struct Sending {
    /// The message.
    pub state: State,
    /// Its receivers.
    pub to: AgentList,
}

/// What goes out, in this order.
pub type SendingList = List<Sending>;

/// What became of a state that came from another agent.
#[derive(Clone, Copy, Debug, PartialEq, Eq)]
pub enum Received {
    /// It was kept as the entry of this number.
    Kept(u64),
    /// No plan leads on from it.
    Dead,
    /// It is known at that cost or less.
    Worse,
}

/// Why no entry was expanded.
#[derive(Clone, Copy, Debug, PartialEq, Eq, Error)]
pub enum ExpandRefusal {
    /// As many entries were expanded as may be.
    #[error("limit")]
    AtLimit,
    /// No open entry is worth an expansion.
    #[error("nothing to expand")]
    Nothing,
    /// No memory was left.
    #[error("out of memory")]
    OutOfMemory,
}

impl From<OutOfMemory> for ExpandRefusal {
    ghost from_gives = { λ _ e. e ≡ expand_refusals.OutOfMemory };

    fn from(_e: OutOfMemory) -> ExpandRefusal {
        ExpandRefusal::OutOfMemory
    }
}

/// Why a state was not received.
#[derive(Clone, Copy, Debug, PartialEq, Eq, Error)]
pub enum ReceiveRefusal {
    /// The token in the receiver's own place was never given.
    #[error("unknown token")]
    UnknownToken,
    /// The met byte in the receiver's own place is not that of its set.
    #[error("wrong met byte")]
    WrongByte,
    /// No memory was left.
    #[error("out of memory")]
    OutOfMemory,
}

impl From<OutOfMemory> for ReceiveRefusal {
    ghost from_gives = { λ _ e. e ≡ receive_refusals.OutOfMemory };

    fn from(_e: OutOfMemory) -> ReceiveRefusal {
        ReceiveRefusal::OutOfMemory
    }
}
