//! The store of one agent.

ghost use Rattle.std.specs.Prelude.{◌≡◌, ◌==◌, ◌+◌, ◌<◌, ◌^◌, ◌∷◌, ◌++◌, [], ℕ, All, IfOk, IfSome, IsSomeAnd, None, OnErr, OnOk, length, slice_get};
ghost use Rattle.mp_rows.specs.Apart.{AreOnce};
ghost use Rattle.mp_store.specs.KeyRows.{key_at, no_key};
ghost use Rattle.mp_store.specs.Keys.{same_key};
ghost use Rattle.mp_store.specs.Laws.{IsEarlier, IsSound};
ghost use Rattle.mp_store.specs.Minima.{least_f, least_goal, popped, best};
ghost use Rattle.mp_store.specs.Record.{empty, new_entry, offered};
ghost use Rattle.mp_store.specs.Sent.{mark_sent, sent_entry};
ghost use Rattle.mp_store.specs.Views.{Shows};

use crate::entry::{EntryView, Offer, Origin};
use crate::key::Key;
use crate::keys::Keys;
use crate::number_store::NumberStore;
use mp_list::OutOfMemory;
use std::alloc::Global;
use std::marker::Model;

/// The states that one agent has met in its search, and those of them that it sent. Contracts see it as
/// the record of its entries.
pub struct Store {
    /// Each key once. In the entries the place of a key here stands for it.
    keys: Keys,
    numbers: NumberStore,
}

impl Drop for Store {
    fn drop(self) {
        let Store {
            keys: _,
            numbers: _,
        } = self;
    }
}

impl Model for Store {
    ghost use Rattle.mp_store.specs.Record.{Record};
    ghost use Rattle.mp_store.specs.declared.key.Key.{Key};

    ghost Value = { Record Key };

    ghost use Rattle.std.specs.Coded.{codes};
    ghost use Rattle.mp_store.specs.contracts.key.Key.{the_row};

    ghost coded = { Prim.hlevel (codes, the_row.coded) };

    ghost use Rattle.mp_store.specs.StoreFields.{store_record, IsStore};

    ghost view = { store_record };

    ghost invariant = { IsStore };
}

impl Store {
    /// The empty store, which takes no memory yet.
    pub fn new(alloc: Global) -> Store
        ensures { result ≡ empty }
    {
        Store {
            keys: Keys::new(alloc),
            numbers: NumberStore::new(alloc),
        }
    }

    /// How many entries there are.
    pub fn count(&self) -> u64
        ensures count { result ≡ length self.now.entries }
        ensures sound { IsSound same_key self.now }
    {
        self.numbers.count()
    }

    /// The least f of an open entry: none exactly where none is open.
    pub fn least_f(&self) -> Option<u64>
        ensures { result ≡ least_f self.now }
    {
        self.numbers.least_f()
    }

    /// The least cost of a goal entry, and the lowest number of a goal entry of that cost: none exactly
    /// where no entry is a goal entry.
    pub fn least_goal(&self) -> Option<(u64, u64)>
        ensures { result ≡ least_goal self.now }
    {
        self.numbers.least_goal()
    }

    /// The entry of a sent number: none exactly where the number was not given.
    pub fn sent_entry(&self, sent: u64) -> Option<u64>
        ensures { result ≡ sent_entry sent self.now }
    {
        self.numbers.sent_entry(sent)
    }

    /// The entry of a number.
    pub fn entry(&self, number: u64) -> EntryView<'_>
        requires { number < length self.now.entries }
        ensures { IsSomeAnd (slice_get self.now.entries number) (λ e. Shows result e) }
    {
        let entry = self.numbers.entry(number);
        EntryView {
            key: self.keys.key(entry.key as usize),
            g: entry.g,
            h: entry.h,
            origin: entry.origin,
        }
    }

    /// The entry of a key that costs least: none exactly where the key has no entry.
    pub fn best(&self, key: &Key) -> Option<u64>
        ensures { result ≡ best same_key key.now self.now }
    {
        match self.keys.find(key) {
            Some(place) => Some(self.numbers.best(place as u64)),
            None => None,
        }
    }

    /// What it cost to reach the state of an entry.
    pub fn cost(&self, number: u64) -> u64
        requires { number < length self.now.entries }
        ensures { IsSomeAnd (slice_get self.now.entries number) (λ e. result ≡ e.g) }
    {
        self.numbers.entry(number).g
    }

    /// Closes the least open entry by f, then h, then number, and gives its number: none exactly where
    /// none is open. What is looked up next is looked for near it first: what it leads to has the same tags.
    pub fn pop_least(&mut self) -> Option<u64>
        ensures { (result, self.new) ≡ popped self.old }
    {
        let least = self.numbers.pop_least();
        aim(&mut self.keys, &self.numbers, least);
        least
    }

    /// Notes that the state of an entry is sent, and gives it the next sent number: none exactly where
    /// that state was sent at that cost or less. For want of memory the store stays as it was.
    pub fn mark_sent(&mut self, entry: u64) -> Result<Option<u64>, OutOfMemory>
        requires { entry < length self.old.entries }
        ensures sent { IfOk result (λ number. (number, self.new)
            ≡ mark_sent same_key entry self.old) }
        ensures err { OnErr result (self.new ≡ self.old) }
    {
        self.numbers.mark_sent(entry)
    }

    /// Offers a state: it is worse exactly where an entry of its key costs g or less, and otherwise it is
    /// kept as a new open entry, to which an older open one of its key gives way. For want of memory the
    /// store stays as it was.
    pub fn offer(
        &mut self,
        key: Key,
        g: u64,
        h: u64,
        origin: Origin,
        goal: bool,
    ) -> Result<Offer, OutOfMemory>
        requires bounded { g + h < 2 ^ 60 }
        requires parent { IsEarlier (length self.old.entries) origin }
        ensures offered { IfOk result (λ answer. (answer, self.new)
            ≡ offered same_key (new_entry key g h origin goal) self.old) }
        ensures err { OnErr result (self.new ≡ self.old) }
    {
        self.offer_copy(&key, g, h, origin, goal)
    }

    /// Offers a state by its key, of which a copy is kept where the key is new. In all else it is as
    /// `offer`.
    pub fn offer_copy(
        &mut self,
        key: &Key,
        g: u64,
        h: u64,
        origin: Origin,
        goal: bool,
    ) -> Result<Offer, OutOfMemory>
        requires bounded { g + h < 2 ^ 60 }
        requires parent { IsEarlier (length self.old.entries) origin }
        ensures offered { IfOk result (λ answer. (answer, self.new)
            ≡ offered same_key (new_entry key.now g h origin goal) self.old) }
        ensures err { OnErr result (self.new ≡ self.old) }
    {
        match self.keys.find(key) {
            Some(place) => self.numbers.offer(place as u64, g, h, origin, goal),
            None => self.keep_new(key, g, h, origin, goal),
        }
    }

    /// Keeps a state that has no entry, which takes no look-up of its key. In all else it is as `offer_copy`.
    pub fn keep_new(
        &mut self,
        key: &Key,
        g: u64,
        h: u64,
        origin: Origin,
        goal: bool,
    ) -> Result<Offer, OutOfMemory>
        requires new { best same_key key.now self.old ≡ None }
        requires bounded { g + h < 2 ^ 60 }
        requires parent { IsEarlier (length self.old.entries) origin }
        ensures offered { IfOk result (λ answer. (answer, self.new)
            ≡ offered same_key (new_entry key.now g h origin goal) self.old) }
        ensures err { OnErr result (self.new ≡ self.old) }
    {
        keep_first(&mut self.keys, &mut self.numbers, key, g, h, origin, goal)
    }

    /// Offers the state of an entry again, which takes no look-up of its key. In all else it is as `offer`.
    pub fn offer_again(
        &mut self,
        entry: u64,
        g: u64,
        h: u64,
        origin: Origin,
        goal: bool,
    ) -> Result<Offer, OutOfMemory>
        requires inside { entry < length self.old.entries }
        requires bounded { g + h < 2 ^ 60 }
        requires parent { IsEarlier (length self.old.entries) origin }
        ensures offered { IsSomeAnd (slice_get self.old.entries entry) (λ e. IfOk result (λ answer. (answer, self.new)
            ≡ offered same_key (new_entry e.key g h origin goal) self.old)) }
        ensures err { OnErr result (self.new ≡ self.old) }
    {
        let key = self.numbers.entry(entry).key;
        self.numbers.offer(key, g, h, origin, goal)
    }
}

/// From now on tags are looked for first where those of an entry are, if there is one.
fn aim(keys: &mut Keys, numbers: &NumberStore, least: Option<u64>)
    requires count { length keys.old ≡ numbers.now.keys }
    requires inside { IfSome least (λ n. n < length numbers.now.kept.entries) }
    ensures { keys.new ≡ keys.old }
{
    if let Some(number) = least {
        keys.aim(numbers.entry(number).key as usize);
    }
}

/// Keeps a state of a new key.
fn keep_first(
    keys: &mut Keys,
    numbers: &mut NumberStore,
    key: &Key,
    g: u64,
    h: u64,
    origin: Origin,
    goal: bool,
) -> Result<Offer, OutOfMemory>
    requires new { (n : ℕ) → n < length keys.old → key_at keys.old n ≡ key.now → ⊥ }
    requires count { length keys.old ≡ numbers.old.keys }
    requires keyed { All (λ e. e.key < length keys.old) numbers.old.kept.entries }
    requires bounded { g + h < 2 ^ 60 }
    requires parent { IsEarlier (length numbers.old.kept.entries) origin }
    ensures keys { OnOk result (keys.new ≡ keys.old ++ key.now ∷ []) }
    ensures offered { IfOk result (λ answer. (answer, numbers.new.kept)
        ≡ offered ◌==◌ (new_entry (length keys.old) g h origin goal) numbers.old.kept) }
    ensures count { length keys.new ≡ numbers.new.keys }
    ensures once { AreOnce no_key keys.new }
    ensures keyed { All (λ e. e.key < length keys.new) numbers.new.kept.entries }
    ensures err { OnErr result ((keys.new ≡ keys.old) × (numbers.new ≡ numbers.old)) }
{
    keys.push(key)?;
    match numbers.keep_first(g, h, origin, goal) {
        Ok(answer) => Ok(answer),
        Err(e) => {
            keys.pop();
            Err(e)
        }
    }
}
