//! What a marker comes to.

use mp_messages::Findings;
use thiserror::Error;

/// What an accepted marker brought about.
#[derive(Clone, Copy, Debug, PartialEq, Eq)]
pub struct Marked {
    /// Whether the snapshot began here with it, so that markers are to be sent.
    pub first: bool,
    /// What the agent found, where no further marker is awaited.
    pub whole: Option<Findings>,
}

/// A marker or report that no agent of the team sends at this moment.
#[derive(Clone, Copy, Debug, PartialEq, Eq, Error)]
#[error("a marker or report out of place")]
pub struct Strange;
