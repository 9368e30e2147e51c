//! What an agent shows of its factor once it is grounded.

use mp_lifting::FactTexts;
use mp_list::List;

/// The public part of a public action.
pub struct Part {
    pub cost: u64,
    /// What has to be true, in the order of the texts' bytes, each once.
    pub pre: FactTexts,
    /// What it makes true, in the same order.
    pub add: FactTexts,
    /// What it makes false and does not also make true, in the same order.
    pub del: FactTexts,
}

impl Drop for Part {
    fn drop(self) {
        let Part {
            cost: _,
            pre: _,
            add: _,
            del: _,
        } = self;
    }
}

/// Parts in the order of their lines, each once.
pub type PartList = List<Part>;

/// What an agent shows of its factor once it is grounded. Texts are in the order of their bytes, each once.
pub struct View {
    /// The public facts and complements that an action touches or a goal names.
    pub facts: FactTexts,
    /// The public goals.
    pub goals: FactTexts,
    /// Whether the private goals hold at the start.
    pub met: bool,
    /// The public parts of the public actions.
    pub acts: PartList,
}

impl Drop for View {
    fn drop(self) {
        let View {
            facts: _,
            goals: _,
            met: _,
            acts: _,
        } = self;
    }
}
