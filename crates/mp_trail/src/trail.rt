//! The own actions that walks have noted.

ghost use Rattle.std.specs.Prelude.{◌≡◌, ◌+◌, ◌<◌, ◌≤◌, ◌^◌, ◌++◌, [], true, All, AllPairs, IfOk, OnOk, OnErr, length, take};
ghost use Rattle.mp_trail.specs.Share.{IsRising, fits, share};
ghost use Rattle.mp_trail.specs.Walk.{back_at, origin_of, walk};

use crate::steps::{Noted, Share, Timed, Walked};
use mp_list::{List, OutOfMemory};
use mp_store::{Origin, Store};
use std::alloc::Global;
use std::marker::Model;

/// The own actions that one agent has noted while a plan was walked back. Contracts see it as the list of them, those
/// of later walks last.
pub struct Trail {
    noted: Vec<Noted>,
}

impl Drop for Trail {
    fn drop(self) {
        let Trail { noted: _ } = self;
    }
}

impl Model for Trail {
    ghost use Rattle.std.specs.Prelude.{List};
    ghost use Rattle.mp_trail.specs.declared.steps.Noted.{Noted};

    ghost Value = { List Noted };

    ghost use Rattle.mp_trail.specs.Share.{IsRising};

    ghost view = { λ t. t.noted.items };

    ghost invariant = { λ t. IsRising t.noted.items };
}

impl Trail {
    /// The trail before any walk, which takes no memory yet.
    pub fn new(alloc: Global) -> Trail
        ensures { result ≡ [] }
    {
        Trail {
            noted: Vec::new(alloc),
        }
    }

    /// Walks from an entry that `back` actions of the plan come after: follows origins, notes the own actions, and tells
    /// where the walk ends. Then the trail fits what comes after that place. For want of memory it stays as it was.
    pub fn walk(&mut self, store: &Store, entry: u64, back: u64) -> Result<Walked, OutOfMemory>
        requires entry { entry < length store.now.entries }
        requires bounded { back + entry < 2 ^ 60 }
        requires above { fits back self.old ≡ true }
        ensures end { IfOk result (λ end. end ≡ (walk store.now entry back).end) }
        ensures noted { OnOk result (self.new ≡ self.old ++ (walk store.now entry back).noted) }
        ensures fits { IfOk result (λ end. fits (back_at end) self.new ≡ true) }
        ensures small { IfOk result (λ end. back_at end ≤ back + entry) }
        ensures err { OnErr result (self.new ≡ self.old) }
    {
        let known = self.noted.len();
        match note_walk(&mut self.noted, store, entry, back) {
            Ok(end) => Ok(end),
            Err(refusal) => {
                self.noted.truncate(known);
                Err(refusal)
            }
        }
    }

    /// Whether every noted action has fewer actions than that after it. So a plan of that length can have them all,
    /// and a walk can begin with that many actions after it.
    pub fn fits(&self, length: u64) -> bool
        ensures fits { result ≡ fits length self.now }
        ensures rising { IsRising self.now }
    {
        match self.noted.last() {
            Some(last) => last.back < length,
            None => true,
        }
    }

    /// The noted actions with their times on a plan of this length. The times rise, from 1 at least to the length at
    /// most. Refuses only for want of memory.
    pub fn share(&self, length: u64) -> Result<Share, OutOfMemory>
        requires { fits length self.now ≡ true }
        ensures share { IfOk result (λ timed. timed ≡ share length self.now) }
        ensures rising { IfOk result (λ timed. AllPairs (λ a later. a.time < later.time) timed) }
        ensures within { IfOk result (λ timed. All (λ t. (1 ≤ t.time) × (t.time ≤ length)) timed) }
    {
        timed(*self.noted.allocator(), self.noted.as_slice(), length)
    }
}

/// The origin of an entry.
fn origin_of(store: &Store, number: u64) -> Origin
    requires { number < length store.now.entries }
    ensures { result ≡ origin_of store.now number }
{
    let entry = store.entry(number);
    entry.origin
}

/// Notes the own actions of a walk at the end of a list, and tells where the walk ends. For want of memory only some
/// of them may be there.
fn note_walk(
    noted: &mut Vec<Noted>,
    store: &Store,
    entry: u64,
    back: u64,
) -> Result<Walked, OutOfMemory>
    requires entry { entry < length store.now.entries }
    requires bounded { back + entry < 2 ^ 60 }
    ensures end { IfOk result (λ end. end ≡ (walk store.now entry back).end) }
    ensures small { IfOk result (λ end. back_at end ≤ back + entry) }
    ensures noted { OnOk result (noted.new.items ≡ noted.old.items ++ (walk store.now entry back).noted) }
    ensures err { OnErr result (take (length noted.old.items) noted.new.items ≡ noted.old.items) }
{
    // its contract says that an own action led from an earlier entry, so the walk ends
    let _count = store.count();
    let mut number = entry;
    let mut back = back;
    'origins: loop {
        match origin_of(store, number) {
            Origin::Root => return Ok(Walked::Root { length: back }),
            Origin::From { agent, sent } => return Ok(Walked::Hop { agent, sent, back }),
            Origin::Own { action, parent } => {
                noted.push(Noted { action, back })?;
                number = parent;
                back += 1;
            }
        }
    }
}

/// The noted actions with their times, the last one that was noted first.
fn timed(alloc: Global, noted: &[Noted], length: u64) -> Result<Share, OutOfMemory>
    requires { fits length noted.now ≡ true }
    ensures { IfOk result (λ timed. timed ≡ share length noted.now) }
{
    let mut timed = List::with_capacity(alloc, noted.len())?;
    let mut rest = noted;
    while let [earlier @ .., last] = rest {
        timed.push(Timed {
            time: length - last.back,
            action: last.action,
        })?;
        rest = earlier;
    }
    Ok(timed)
}
