//! Facts and complements in numbers.

ghost use Rattle.std.specs.Hash as fed;
ghost use Rattle.std.specs.Cmp.Rules.{hashing};
ghost use Rattle.std.proofs.Common.{rules};
ghost use Rattle.mp_ground_facts.specs.Mixed.{mixed};

use crate::mixed::mix;
use mp_list::List;
use std::hash::{Hash, Hasher};

/// A fact or the complement of one. Private ones come before public ones, then facts before
/// complements, and else they are ordered by predicate and by objects.
#[derive(Debug, Drop, PartialEq, Eq, PartialOrd, Ord)]
pub struct GroundFact {
    pub is_public: bool,
    /// Whether it is true where the fact is false.
    pub is_complement: bool,
    pub predicate: u32,
    pub objects: List<u32>,
}

/// What is hashed is one number, since a hash function takes its time for each piece.
impl Hash for GroundFact {
    ghost hash_input = { λ f. fed.u64 (mixed f.is_public f.is_complement f.predicate f.objects) };

    ghost respects_eq = { Prim.search (hashing, rules) };

    fn hash<H: Hasher>(&self, state: &mut H) {
        state.write_u64(mix(
            self.is_public,
            self.is_complement,
            self.predicate,
            self.objects.as_slice(),
        ));
    }
}
