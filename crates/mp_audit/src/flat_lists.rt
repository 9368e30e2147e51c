//! Lists of numbers that lie one behind another in one piece of memory.

ghost use Rattle.std.specs.Prelude.{◌≡◌, ◌++◌, ◌∷◌, [], ◌<◌, ◌+◌, ◌≤◌, length, option_map, slice_get, take, drop, All, IfSome, OnErr, OnOk, Some};
ghost use Rattle.std.specs.List.Sorted.{IsStrictlyIncreasing};
ghost use Rattle.mp_audit.specs.Flat.{start_at};

use mp_list::{OutOfMemory, to_u32};
use std::alloc::Global;
use std::marker::Model;

/// Lists that lie one behind another in numbers of someone else. Contracts see them as the list of them.
#[derive(Drop)]
pub(crate) struct ListsPart<'a> {
    numbers: &'a [u32],
    /// Where the first list begins.
    start: usize,
    /// Where each list ends, and the next one begins.
    ends: &'a [u32],
}

impl<'a> Model for ListsPart<'a> {
    ghost use Rattle.std.specs.Prelude.{List, ℕ};
    ghost use Rattle.mp_audit.specs.Flat.{cut, AreCut};

    ghost Value = { List (List ℕ) };

    ghost view = { λ p. cut p.start p.ends.now p.numbers.now };

    ghost invariant = { λ p. AreCut p.start p.ends.now p.numbers.now };
}

impl<'a> ListsPart<'a> {
    /// How many lists they are.
    #[tactic(auto, using(crate::proofs::FlatLemmas::length_cut))]
    pub(crate) fn len(&self) -> usize
        ensures { result ≡ length self.now }
    {
        self.ends.len()
    }

    /// The list in a place.
    pub(crate) fn list(&self, at: usize) -> &'a [u32]
        requires { at < length self.now }
        ensures list { slice_get self.now at ≡ Some result.now }
        ensures rising { IsStrictlyIncreasing result.now }
    {
        let start = start_at(self.start, self.ends, at);
        let end = self.ends[at] as usize;
        &self.numbers[start..end]
    }

    /// The list behind the one in a place.
    pub(crate) fn behind(&self, at: usize) -> &'a [u32]
        requires { at + 1 < length self.now }
        ensures list { slice_get self.now (at + 1) ≡ Some result.now }
        ensures rising { IsStrictlyIncreasing result.now }
    {
        let ends = self.ends;
        let start = ends[at] as usize;
        let end = ends[at + 1] as usize;
        &self.numbers[start..end]
    }
}

/// Where the list in a place begins.
fn start_at(start: usize, ends: &[u32], at: usize) -> usize
    requires { at ≤ length ends.now }
    ensures { result ≡ start_at start ends.now at }
{
    if at == 0 {
        start
    } else {
        ends[at - 1] as usize
    }
}

/// Lists of numbers, each of which rises, one behind another in one piece of memory. Contracts see them as the list of
/// them.
#[derive(Drop)]
pub struct FlatLists {
    numbers: Vec<u32>,
    /// Where each list ends, and the next one begins.
    ends: Vec<u32>,
}

impl Model for FlatLists {
    ghost use Rattle.std.specs.Prelude.{List, ℕ};
    ghost use Rattle.mp_audit.specs.Flat.{cut, FillsAll};

    ghost Value = { List (List ℕ) };

    ghost view = { λ l. cut 0 l.ends.items l.numbers.items };

    ghost invariant = { λ l. FillsAll l.ends.items l.numbers.items };
}

impl FlatLists {
    /// No lists, which take no memory yet.
    pub fn new(alloc: Global) -> FlatLists
        ensures { result ≡ [] }
    {
        FlatLists {
            numbers: Vec::new(alloc),
            ends: Vec::new(alloc),
        }
    }

    /// How many lists they are.
    #[tactic(auto, using(crate::proofs::FlatLemmas::length_cut))]
    pub fn len(&self) -> usize
        ensures { result ≡ length self.now }
    {
        self.ends.len()
    }

    /// Takes all lists out, and keeps the memory.
    pub fn clear(&mut self)
        ensures { self.new ≡ [] }
    {
        self.numbers.clear();
        self.ends.clear();
    }

    /// Adds a list at the end. For want of memory the lists stay as they were.
    pub fn push(&mut self, list: &[u32]) -> Result<(), OutOfMemory>
        requires rising { IsStrictlyIncreasing list.now }
        ensures ok { OnOk result (self.new ≡ self.old ++ list.now ∷ []) }
        ensures err { OnErr result (self.new ≡ self.old) }
    {
        let start = self.numbers.len();
        let end = to_u32(start + list.len())?;
        self.numbers.extend_from_slice(list)?;
        match self.ends.push(end) {
            Ok(()) => Ok(()),
            Err(failed) => {
                self.numbers.truncate(start);
                Err(OutOfMemory::from(failed))
            }
        }
    }

    /// The list in a place, counted from 0: none exactly where there are not more lists than that.
    pub fn get(&self, at: usize) -> Option<&[u32]>
        ensures list { option_map (λ list. list.now) result ≡ slice_get self.now at }
        ensures rising { IfSome result (λ list. IsStrictlyIncreasing list.now) }
    {
        if at < self.len() {
            Some(self.all().list(at))
        } else {
            None
        }
    }

    /// Adds other lists at the end. Refuses only for want of memory.
    pub(crate) fn extend(&mut self, lists: &FlatLists) -> Result<(), OutOfMemory>
        ensures { OnOk result (self.new ≡ self.old ++ lists.now) }
    {
        let others = lists.all();
        for at in 0..others.len() {
            self.push(others.list(at))?;
        }
        Ok(())
    }

    /// All lists.
    fn all(&self) -> ListsPart<'_>
        ensures { result ≡ self.now }
    {
        ListsPart {
            numbers: self.numbers.as_slice(),
            start: 0,
            ends: self.ends.as_slice(),
        }
    }

    /// So many lists from a place on.
    pub(crate) fn part(&self, first: usize, count: usize) -> ListsPart<'_>
        requires { first + count ≤ length self.now }
        ensures { result ≡ take count (drop first self.now) }
    {
        let ends = self.ends.as_slice();
        ListsPart {
            numbers: self.numbers.as_slice(),
            start: start_at(0, ends, first),
            ends: &ends[first..first + count],
        }
    }
}
