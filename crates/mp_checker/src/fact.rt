//! Facts in numbers.

ghost use Rattle.std.specs.Hash as fed;
ghost use Rattle.std.specs.Cmp.Rules.{hashing};
ghost use Rattle.std.proofs.Common.{rules};
ghost use Rattle.mp_checker.specs.Mixed.{mixed as mixed_parts};

use crate::mixed::mixed;
use mp_list::List;
use std::hash::{Hash, Hasher};

/// A predicate or a function at objects, with numbers for the names.
#[derive(Drop, PartialEq, Eq)]
pub struct FactNumbers {
    /// The number of the agent that keeps a fact to itself; none for a public fact and for a function.
    pub owner: Option<u16>,
    pub symbol: u32,
    pub objects: List<u32>,
}

/// What is hashed is one number, since a hash function takes its time for each piece.
impl Hash for FactNumbers {
    ghost hash_input = { λ f. fed.u64 (mixed_parts f.owner f.symbol f.objects) };

    ghost respects_eq = { Prim.search (hashing, rules) };

    fn hash<H: Hasher>(&self, state: &mut H) {
        state.write_u64(mixed(self.owner, self.symbol, self.objects.as_slice()));
    }
}
