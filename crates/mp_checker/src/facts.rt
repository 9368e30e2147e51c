//! The facts that were met.

ghost use Rattle.std.specs.Prelude.{◌≡◌, []};
ghost use Rattle.mp_checker.specs.Marked.{true_facts};

use crate::fact::FactNumbers;
use indexmap::IndexSet;
use std::alloc::Global;

/// The facts that were met, whose places are their numbers, and which of them are true.
#[derive(Drop)]
pub struct Facts {
    pub known: IndexSet<FactNumbers>,
    /// For each number whether its fact is true; past the end none is.
    pub marks: Vec<bool>,
}

/// No facts.
#[tactic(auto, unfolding(crate::specs::Marked::true_facts))]
pub fn no_facts(alloc: Global) -> Facts
    ensures { true_facts result ≡ [] }
{
    Facts {
        known: IndexSet::new(alloc),
        marks: Vec::new(alloc),
    }
}
