//! Facts by parts that are borrowed, to look them up without memory.

ghost use Rattle.std.specs.Hash as fed;
ghost use Rattle.std.specs.Cmp.Rules.{hashing};
ghost use Rattle.std.proofs.Common.{rules};
ghost use Rattle.mp_ground_facts.specs.Mixed.{mixed};

use crate::fact::GroundFact;
use crate::mixed::mix;
use indexmap::Equivalent;
use std::hash::{Hash, Hasher};

/// A fact or the complement of one whose objects are borrowed.
#[derive(Clone, Copy, PartialEq, Eq)]
pub struct FactKey<'a> {
    pub is_public: bool,
    pub is_complement: bool,
    pub predicate: u32,
    pub objects: &'a [u32],
}

impl Hash for FactKey<'_> {
    ghost hash_input = { λ k. fed.u64 (mixed k.is_public k.is_complement k.predicate k.objects.now) };

    ghost respects_eq = { Prim.search (hashing, rules) };

    fn hash<H: Hasher>(&self, state: &mut H) {
        state.write_u64(mix(
            self.is_public,
            self.is_complement,
            self.predicate,
            self.objects,
        ));
    }
}

impl Equivalent<GroundFact> for FactKey<'_> {
    ghost use Rattle.mp_ground_facts.specs.Keys.{fact_of_key, is_key_of};
    ghost use Rattle.mp_ground_facts.specs.contracts.fact.GroundFactHash.TheImpl.Laws as hashed;
    ghost use Rattle.mp_ground_facts.specs.contracts.fact.GroundFactEq.TheImpl.Laws as equal;

    ghost equivalent = { is_key_of };

    ghost respects_hash = { λ q. hashed.respects_eq-law (fact_of_key q) };

    ghost respects_eq = { λ q. equal.laws-law.congr (fact_of_key q) };

    fn equivalent(&self, key: &GroundFact) -> bool {
        self.is_public == key.is_public
            && self.is_complement == key.is_complement
            && self.predicate == key.predicate
            && self.objects == key.objects.as_slice()
    }
}
