//! Why a step is refused.

ghost use Rattle.std.specs.Prelude.{◌≡◌};
ghost use Rattle.mp_machine.specs.declared.refusal.StepRefusal.TheVariants as refusals;

use mp_list::OutOfMemory;
use thiserror::Error;

/// Why a message is a bad one for the agent that takes it, by what that agent has done so far. The
/// first kind that the message is of is told.
#[derive(Clone, Copy, Debug, PartialEq, Eq, Error)]
pub enum BadKind {
    /// The bytes spell no message of a team of so many agents and public facts.
    #[error("no message")]
    NotASpelling,
    /// A state whose token in the receiver's own place was never given.
    #[error("a state with an unknown token")]
    UnknownToken,
    /// A state whose met byte in the receiver's own place is not that of its set.
    #[error("a state with a wrong met byte")]
    WrongByte,
    /// A marker of the snapshot that is under way, from an agent whose marker has come; a marker
    /// of another number while one is under way; and where none is, any marker at agent 1, and at
    /// another agent one whose number does not follow that of the last snapshot.
    #[error("a marker out of place")]
    StrangeMarker,
    /// A report at another agent than agent 1, of a snapshot that is not under way, or from an
    /// agent whose report has come.
    #[error("a report out of place")]
    StrangeReport,
    /// A pick from another agent than agent 1, of another number than the last snapshot has,
    /// while that is under way, where no goal entry was noted in it, after another pick, or after
    /// own actions were noted.
    #[error("a pick out of place")]
    StrangePick,
    /// A trace of a state that was never sent, one that could lead to a plan of 2^60 actions or
    /// more, one that no more actions come after than after some noted action, or one at agent 1
    /// while it has proved no plan to be cheapest.
    #[error("a trace out of place")]
    StrangeTrace,
    /// A length with no room for some noted action, or one at agent 1 while it has proved no plan
    /// to be cheapest.
    #[error("a length out of place")]
    StrangeLength,
    /// An end without a plan that another agent than agent 1 tells.
    #[error("an end out of place")]
    StrangeDone,
}

/// Why a step did not happen.
#[derive(Clone, Copy, Debug, PartialEq, Eq, Error)]
pub enum StepRefusal {
    /// The event may not happen now.
    #[error("not now")]
    NotNow,
    /// The message that was taken is a bad one.
    #[error("bad message")]
    Bad(BadKind),
    /// No memory was left.
    #[error("out of memory")]
    OutOfMemory,
}

impl From<OutOfMemory> for StepRefusal {
    ghost from_gives = { λ _ e. e ≡ refusals.OutOfMemory };

    fn from(_e: OutOfMemory) -> StepRefusal {
        StepRefusal::OutOfMemory
    }
}
