//! What a message tells of one agent's private facts.

use mp_list::{Copied, List, OutOfMemory};

/// Another agent's private facts as a state carries them: a token that stands for the set of those that
/// are true, and whether all private goals of that agent hold in it.
#[derive(Clone, Copy, Debug, PartialEq, Eq, PartialOrd, Ord, Hash)]
pub struct Tag {
    /// The number of the set; only its own agent knows which set that is.
    pub token: u64,
    /// Whether the agent's private goals all hold in the set.
    pub met: bool,
}

/// A tag for each agent, in their order.
pub type Tags = List<Tag>;

impl Copied for Tag {
    fn copy(&self) -> Result<Tag, OutOfMemory> {
        Ok(*self)
    }
}
