//! Facts by parts that are borrowed, to look them up without memory.

ghost use Rattle.std.specs.Hash as fed;
ghost use Rattle.std.specs.Cmp.Rules.{hashing};
ghost use Rattle.std.proofs.Common.{rules};
ghost use Rattle.mp_checker.specs.Mixed.{mixed as mixed_parts};

use crate::fact::FactNumbers;
use crate::mixed::mixed;
use indexmap::Equivalent;
use std::hash::{Hash, Hasher};

/// A predicate or a function at borrowed objects, in numbers.
#[derive(Clone, Copy, PartialEq, Eq)]
pub struct FactKey<'a> {
    pub owner: Option<u16>,
    pub symbol: u32,
    pub objects: &'a [u32],
}

impl Hash for FactKey<'_> {
    ghost hash_input = { λ k. fed.u64 (mixed_parts k.owner k.symbol k.objects.now) };

    ghost respects_eq = { Prim.search (hashing, rules) };

    fn hash<H: Hasher>(&self, state: &mut H) {
        state.write_u64(mixed(self.owner, self.symbol, self.objects));
    }
}

impl Equivalent<FactNumbers> for FactKey<'_> {
    ghost use Rattle.mp_checker.specs.Keys.{fact_of_key, is_key_of};
    ghost use Rattle.mp_checker.specs.contracts.fact.FactNumbersHash.TheImpl.Laws as hashed;
    ghost use Rattle.mp_checker.specs.contracts.fact.FactNumbersEq.TheImpl.Laws as equal;

    ghost equivalent = { is_key_of };

    ghost respects_hash = { λ q. hashed.respects_eq-law (fact_of_key q) };

    ghost respects_eq = { λ q. equal.laws-law.congr (fact_of_key q) };

    fn equivalent(&self, key: &FactNumbers) -> bool {
        self.symbol == key.symbol
            && self.objects == key.objects.as_slice()
            && self.owner == key.owner
    }
}
