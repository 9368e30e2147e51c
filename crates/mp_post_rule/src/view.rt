//! What a seat knows. Values of these types exist in proofs alone.

use crate::kept::Kept;
use mp_list::List;
use mp_stamps::StampedList;

/// A party of a seat.
pub struct Party {
    /// What it signed.
    pub list: StampedList,
    /// Whether it was halted.
    pub halted: bool,
}

/// A post and the value that was found there.
pub struct Found {
    /// The agent whose post it is.
    pub post: u16,
    /// What it kept.
    pub kept: Kept,
}

/// What a seat knows.
pub struct View {
    /// For each agent the party, where the seat holds it.
    pub parties: List<Option<Party>>,
    /// The agents that it has seen halted.
    pub seen: List<u16>,
    /// How many turns it took.
    pub turns: u64,
    /// The post of the last of them, as it was found.
    pub last: Option<Found>,
    /// The post whose turn it holds, with its value.
    pub turn: Option<Found>,
}
