//! Facts by their names.

use mp_list::{Copied, List, OutOfMemory};
use mp_sets::Agent;
use mp_sexp::{Name, NameList};

/// A ground fact of the united problem (MA-STRIPS). Facts of different owners are different, however they
/// are spelled; public facts of the same spelling are one.
#[derive(Drop)]
pub struct NamedFact {
    /// The agent that keeps the fact to itself; none for a public fact.
    pub owner: Option<Agent>,
    pub predicate: Name,
    pub args: NameList,
}

impl Copied for NamedFact {
    fn copy(&self) -> Result<NamedFact, OutOfMemory> {
        Ok(NamedFact {
            owner: self.owner,
            predicate: self.predicate.copy()?,
            args: self.args.copy()?,
        })
    }
}

/// A fact, or the complement of one, which is true exactly where the fact is false.
#[derive(Drop)]
pub struct SignedFact {
    /// Whether it is the fact itself.
    pub positive: bool,
    pub fact: NamedFact,
}

/// Facts and complements, one after another.
pub type SignedFactList = List<SignedFact>;

impl Copied for SignedFact {
    fn copy(&self) -> Result<SignedFact, OutOfMemory> {
        Ok(SignedFact {
            positive: self.positive,
            fact: self.fact.copy()?,
        })
    }
}
