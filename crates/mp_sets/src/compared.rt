//! Sets compare by their sizes and then as binary numbers. Equal are those of one size with the same members.

ghost use Rattle.std.specs.Ordering.{as_partial_cmp};
ghost use Rattle.std.specs.Cmp.{partial_order_from_own_ties};
ghost use Rattle.std.specs.Cmp.Rules.{comparing, hashing};
ghost use Rattle.std.proofs.Common.{rules};
ghost use Rattle.mp_sets.specs.Compared.{sized_eq, sized_cmp, sized_writes};

use crate::{Bits, BitsView, words};
use std::cmp::Ordering;
use std::hash::{Hash, Hasher};

impl PartialEq for Bits {
    ghost eq = { sized_eq };

    ghost laws = { Prim.search (comparing, rules) };

    fn eq(&self, other: &Bits) -> bool {
        self.size() == other.size() && self.equal(other)
    }
}

impl Eq for Bits {
    ghost laws = { Prim.search (comparing, rules) };
}

impl PartialOrd for Bits {
    ghost partial_cmp = { as_partial_cmp sized_cmp };

    ghost laws = { partial_order_from_own_ties (Prim.search (comparing, rules)) (Prim.search (comparing, rules)) };

    fn partial_cmp(&self, other: &Bits) -> Option<Ordering> {
        Some(self.cmp(other))
    }
}

impl Ord for Bits {
    ghost cmp = { sized_cmp };

    ghost total = { Prim.search (comparing, rules) };

    ghost matches_partial_cmp = { Prim.search (comparing, rules) };

    ghost matches_eq = { Prim.search (comparing, rules) };

    fn cmp(&self, other: &Bits) -> Ordering {
        match self.size().cmp(&other.size()) {
            Ordering::Equal => words::compare(self.words(), other.words()),
            order => order,
        }
    }
}

impl Hash for Bits {
    ghost hash_input = { sized_writes };

    ghost respects_eq = { Prim.search (hashing, rules) };

    fn hash<H: Hasher>(&self, state: &mut H) {
        u64::hash_slice(self.words(), state);
    }
}

impl PartialEq for BitsView<'_> {
    ghost eq = { sized_eq };

    ghost laws = { Prim.search (comparing, rules) };

    fn eq(&self, other: &BitsView<'_>) -> bool {
        self.size() == other.size() && self.equal(other)
    }
}

impl Eq for BitsView<'_> {
    ghost laws = { Prim.search (comparing, rules) };
}

impl Hash for BitsView<'_> {
    ghost hash_input = { sized_writes };

    ghost respects_eq = { Prim.search (hashing, rules) };

    fn hash<H: Hasher>(&self, state: &mut H) {
        u64::hash_slice(self.words(), state);
    }
}
