//! Lists of numbers that rise.

ghost use Rattle.std.specs.Prelude.{◌≡◌, ◌++◌, ◌∷◌, [], length, slice_get, IfOk, OnOk, OnErr};
ghost use Rattle.std.specs.Option.{option_copied};
ghost use Rattle.std.specs.List.Sorted.{IsStrictlyIncreasing};
ghost use Rattle.std.specs.Prelude.{Some, refl, nat_eq};
ghost use Rattle.std.specs.Ordering.{nat_cmp};
ghost use Rattle.std.specs.Cmp.{partial_equiv_from_equiv};
ghost use Rattle.std.specs.Cmp.Lexicographic.{pointwise, slice_cmp, nat_list_eq_equiv, nat_list_cmp_total, texts_po, texts_ties};
ghost use Rattle.std.specs.Cmp.Rules.{hashing};
ghost use Rattle.std.specs.Hash as fed;
ghost use Rattle.std.proofs.Common.{rules};
ghost use Rattle.mp_sets.specs.Numbers.{IsAboveLast};

use mp_list::{Copied, OutOfMemory, SmallList};
use std::alloc::Global;
use std::cmp::Ordering;
use std::hash::{Hash, Hasher};
use std::marker::Model;

/// Numbers of facts, each above the one before it. Contracts see it as the list of them. A list of at most
/// one number takes no memory beside itself.
#[derive(Debug, Drop)]
pub struct FactList {
    numbers: SmallList<u32>,
}

impl Model for FactList {
    ghost use Rattle.std.specs.Prelude.{List, ℕ};
    ghost use Rattle.std.specs.List.Sorted.{IsStrictlyIncreasing};

    ghost Value = { List ℕ };

    ghost view = { λ l. l.numbers };

    ghost invariant = { λ l. IsStrictlyIncreasing l.numbers };
}

impl FactList {
    /// The empty list.
    pub fn new(alloc: Global) -> FactList
        ensures { result ≡ [] }
    {
        FactList {
            numbers: SmallList::new(alloc),
        }
    }

    /// The empty list, with memory for this many numbers where they are two or more. Refuses only for want of memory.
    pub fn with_capacity(alloc: Global, capacity: usize) -> Result<FactList, OutOfMemory>
        ensures { IfOk result (λ list. list ≡ []) }
    {
        Ok(FactList {
            numbers: SmallList::with_capacity(alloc, capacity)?,
        })
    }

    /// Adds a number above the last one at the end. For want of memory the list stays as it was.
    pub fn push(&mut self, number: u32) -> Result<(), OutOfMemory>
        requires { IsAboveLast self.old number }
        ensures ok { OnOk result (self.new ≡ self.old ++ number ∷ []) }
        ensures err { OnErr result (self.new ≡ self.old) }
    {
        self.numbers.push(number)
    }

    /// How many numbers the list has.
    pub fn len(&self) -> usize
        ensures { result ≡ length self.now }
    {
        self.numbers.len()
    }

    /// The number at a place, counted from 0: none exactly where the list is not longer than that.
    pub fn get(&self, at: usize) -> Option<&u32>
        ensures { option_copied result ≡ slice_get self.now at }
    {
        self.numbers.get(at)
    }

    /// The numbers, least one first.
    pub fn as_slice(&self) -> &[u32]
        ensures numbers { result.now ≡ self.now }
        ensures rising { IsStrictlyIncreasing self.now }
    {
        self.numbers.as_slice()
    }
}

impl Copied for FactList {
    fn copy(&self) -> Result<FactList, OutOfMemory> {
        Ok(FactList {
            numbers: self.numbers.copy()?,
        })
    }
}

impl PartialEq for FactList {
    ghost eq = { pointwise nat_eq };

    ghost laws = { partial_equiv_from_equiv nat_list_eq_equiv };

    fn eq(&self, other: &FactList) -> bool {
        self.as_slice() == other.as_slice()
    }
}

impl Eq for FactList {
    ghost laws = { nat_list_eq_equiv };
}

/// The first numbers that differ tell, and the lengths where there are none.
impl PartialOrd for FactList {
    ghost partial_cmp = { λ a b. Some (slice_cmp nat_cmp a b) };

    ghost laws = { texts_po };

    fn partial_cmp(&self, other: &FactList) -> Option<Ordering> {
        Some(self.cmp(other))
    }
}

impl Ord for FactList {
    ghost cmp = { slice_cmp nat_cmp };

    ghost total = { nat_list_cmp_total };

    ghost matches_partial_cmp = { λ a b. refl };

    ghost matches_eq = { texts_ties };

    fn cmp(&self, other: &FactList) -> Ordering {
        self.as_slice().cmp(&other.as_slice())
    }
}

impl Hash for FactList {
    ghost hash_input = { fed.slice fed.u32 };

    ghost respects_eq = { Prim.search (hashing, rules) };

    fn hash<H: Hasher>(&self, state: &mut H) {
        self.as_slice().hash(state);
    }
}
