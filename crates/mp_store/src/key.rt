//! What tells one state of an agent from another.

use mp_list::{Copied, OutOfMemory};
use mp_sets::{Bits, Tags};

/// A state as an agent knows it: the true public facts, the index of its own private set, and for each
/// agent a tag.
#[derive(Debug, PartialEq, Eq, PartialOrd, Ord)]
pub struct Key {
    /// The true public facts.
    pub publics: Bits,
    /// The index of the agent's own private set.
    pub mine: u64,
    /// A tag for each agent.
    pub tags: Tags,
}

impl Drop for Key {
    fn drop(self) {
        let Key {
            publics: _,
            mine: _,
            tags: _,
        } = self;
    }
}

impl Copied for Key {
    fn copy(&self) -> Result<Key, OutOfMemory> {
        Ok(Key {
            publics: self.publics.copy()?,
            mine: self.mine,
            tags: self.tags.copy()?,
        })
    }
}
