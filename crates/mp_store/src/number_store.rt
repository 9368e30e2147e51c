//! A store whose keys are numbers.

ghost use Rattle.std.specs.Prelude.{All, nat_le, ◌≡◌, ◌==◌, ◌+◌, ◌<◌, ◌^◌, true, false, Some, IfOk, OnOk, OnErr, length, slice_get};
ghost use Rattle.mp_store.specs.declared.entry.Offer.TheVariants.{Kept};
ghost use Rattle.mp_store.specs.declared.rank.Rank.{Rank};
ghost use Rattle.mp_store.specs.Laws.{IsEarlier, IsSound};
ghost use Rattle.mp_store.specs.Minima.{least_f, least_goal, popped, best};
ghost use Rattle.mp_store.specs.NumberFields.{AreRanks, is_fresh, given_way, is_at_most, better_goal};
ghost use Rattle.mp_store.specs.Ranks.{first_rank};
ghost use Rattle.mp_store.specs.Record.{empty, new_entry, is_open, is_known, kept, offered};
ghost use Rattle.mp_store.specs.Sent.{mark_sent, sent_entry};

use crate::entry::{Entry, Mark, Offer, Origin};
use crate::open_list::OpenList;
use crate::rank::Rank;
use mp_list::OutOfMemory;
use std::alloc::Global;
use std::marker::Model;

/// What is known of a key.
#[derive(Clone, Copy)]
pub(crate) struct Known {
    /// The number of its last entry, which costs least.
    best: u64,
    /// The least cost at which its state was sent.
    sent: Option<u64>,
}

/// A store whose keys are numbers: 0 for the first key that is kept, and the next number for each new one.
/// Contracts see it as the record of its entries and how many keys there are.
#[derive(Drop)]
pub(crate) struct NumberStore {
    /// By their numbers.
    entries: Vec<Entry<u64>>,
    /// What is known of each key.
    keys: Vec<Known>,
    /// The ranks of the open entries. Those of others stay in it until they come first.
    open: OpenList,
    /// The entries whose states were sent, by their sent numbers.
    sent: Vec<u64>,
    /// The least cost of a goal entry, and the lowest number of such an entry.
    goal: Option<(u64, u64)>,
}

impl Model for NumberStore {
    ghost use Rattle.mp_store.specs.Numbered.{NumberedRecord};

    ghost Value = { NumberedRecord };

    ghost use Rattle.mp_store.specs.NumberFields.{numbered_record, IsNumberStore};

    ghost view = { numbered_record };

    ghost invariant = { IsNumberStore };
}

impl NumberStore {
    /// The empty store, which takes no memory yet.
    pub(crate) fn new(alloc: Global) -> NumberStore
        ensures { result ≡ record { kept = empty; keys = 0 } }
    {
        NumberStore {
            entries: Vec::new(alloc),
            keys: Vec::new(alloc),
            open: OpenList::new(alloc),
            sent: Vec::new(alloc),
            goal: None,
        }
    }

    /// How many entries there are.
    pub(crate) fn count(&self) -> u64
        ensures count { result ≡ length self.now.kept.entries }
        ensures sound { IsSound ◌==◌ self.now.kept }
    {
        self.entries.len() as u64
    }

    /// The entry of a sent number.
    pub(crate) fn sent_entry(&self, sent: u64) -> Option<u64>
        ensures { result ≡ sent_entry sent self.now.kept }
    {
        self.sent.get(sent as usize).copied()
    }

    /// The least f of an open entry.
    pub(crate) fn least_f(&self) -> Option<u64>
        ensures { result ≡ least_f self.now.kept }
    {
        match self.open.first() {
            Some(rank) => Some(rank.f),
            None => None,
        }
    }

    /// The least cost of a goal entry, and the lowest number of such an entry.
    pub(crate) fn least_goal(&self) -> Option<(u64, u64)>
        ensures { result ≡ least_goal self.now.kept }
    {
        self.goal
    }

    /// The entry of a number.
    pub(crate) fn entry(&self, number: u64) -> &Entry<u64>
        requires { number < length self.now.kept.entries }
        ensures entry { slice_get self.now.kept.entries number ≡ Some result.now }
        ensures key { result.now.key < self.now.keys }
    {
        &self.entries[number as usize]
    }

    /// The entry of a key that costs least.
    pub(crate) fn best(&self, key: u64) -> u64
        requires { key < self.now.keys }
        ensures { Some result ≡ best ◌==◌ key self.now.kept }
    {
        self.keys[key as usize].best
    }

    /// Closes the least open entry, and gives its number: none exactly where none is open.
    pub(crate) fn pop_least(&mut self) -> Option<u64>
        ensures popped { (result, self.new.kept) ≡ popped self.old.kept }
        ensures keys { self.new.keys ≡ self.old.keys }
        ensures keyed { All (λ e. e.key < self.new.keys) self.new.kept.entries }
    {
        match self.open.first() {
            Some(rank) => {
                self.entries[rank.number as usize].mark = Mark::Expanded;
                drop_stale(&self.entries, &mut self.open);
                Some(rank.number)
            }
            None => None,
        }
    }

    /// The sent number that the state of an entry gets: none exactly where that state was sent at that
    /// cost or less.
    pub(crate) fn mark_sent(&mut self, entry: u64) -> Result<Option<u64>, OutOfMemory>
        requires { entry < length self.old.kept.entries }
        ensures sent { IfOk result (λ number. (number, self.new.kept)
            ≡ mark_sent ◌==◌ entry self.old.kept) }
        ensures keys { self.new.keys ≡ self.old.keys }
        ensures keyed { All (λ e. e.key < self.new.keys) self.new.kept.entries }
        ensures err { OnErr result (self.new ≡ self.old) }
    {
        let Entry { key, g, .. } = self.entries[entry as usize];
        if is_at_most(self.keys[key as usize].sent, g) {
            return Ok(None);
        }
        let number = self.sent.len() as u64;
        self.sent.push(entry)?;
        self.keys[key as usize].sent = Some(g);
        Ok(Some(number))
    }

    /// Offers a state of a known key.
    pub(crate) fn offer(
        &mut self,
        key: u64,
        g: u64,
        h: u64,
        origin: Origin,
        goal: bool,
    ) -> Result<Offer, OutOfMemory>
        requires key { key < self.old.keys }
        requires bounded { g + h < 2 ^ 60 }
        requires parent { IsEarlier (length self.old.kept.entries) origin }
        ensures offered { IfOk result (λ answer. (answer, self.new.kept)
            ≡ offered ◌==◌ (new_entry key g h origin goal) self.old.kept) }
        ensures keys { self.new.keys ≡ self.old.keys }
        ensures keyed { All (λ e. e.key < self.new.keys) self.new.kept.entries }
        ensures err { OnErr result (self.new ≡ self.old) }
    {
        let best = self.keys[key as usize].best;
        if is_as_cheap(&self.entries[best as usize], g) {
            return Ok(Offer::Worse);
        }
        self.keep(key, g, h, origin, goal)
    }

    /// Keeps a state that is cheaper than the best entry of its key.
    fn keep(
        &mut self,
        key: u64,
        g: u64,
        h: u64,
        origin: Origin,
        goal: bool,
    ) -> Result<Offer, OutOfMemory>
        requires key { key < self.old.keys }
        requires new { is_known ◌==◌ key g self.old.kept.entries ≡ false }
        requires bounded { g + h < 2 ^ 60 }
        requires parent { IsEarlier (length self.old.kept.entries) origin }
        ensures answer { IfOk result (λ answer. answer ≡ Kept (length self.old.kept.entries)) }
        ensures kept { OnOk result (self.new.kept
            ≡ kept ◌==◌ (new_entry key g h origin goal) self.old.kept) }
        ensures keys { self.new.keys ≡ self.old.keys }
        ensures keyed { All (λ e. e.key < self.new.keys) self.new.kept.entries }
        ensures err { OnErr result (self.new ≡ self.old) }
    {
        let number = self.entries.len() as u64;
        self.entries.reserve(1)?;
        self.open.insert(rank_of(g, h, number))?;
        self.entries
            .push(Entry {
                key,
                g,
                h,
                mark: Mark::Open,
                origin,
                goal,
            })
            .unwrap();
        let best = self.keys[key as usize].best;
        give_way(&mut self.entries[best as usize]);
        drop_stale(&self.entries, &mut self.open);
        self.keys[key as usize].best = number;
        self.goal = better_goal(self.goal, goal, g, number);
        Ok(Offer::Kept(number))
    }

    /// Keeps a state of a new key.
    pub(crate) fn keep_first(
        &mut self,
        g: u64,
        h: u64,
        origin: Origin,
        goal: bool,
    ) -> Result<Offer, OutOfMemory>
        requires bounded { g + h < 2 ^ 60 }
        requires parent { IsEarlier (length self.old.kept.entries) origin }
        ensures offered { IfOk result (λ answer. (answer, self.new.kept)
            ≡ offered ◌==◌ (new_entry self.old.keys g h origin goal) self.old.kept) }
        ensures keys { OnOk result (self.new.keys ≡ self.old.keys + 1) }
        ensures keyed { All (λ e. e.key < self.new.keys) self.new.kept.entries }
        ensures err { OnErr result (self.new ≡ self.old) }
    {
        let number = self.entries.len() as u64;
        let key = self.keys.len() as u64;
        self.entries.reserve(1)?;
        self.keys.reserve(1)?;
        self.open.insert(rank_of(g, h, number))?;
        self.entries
            .push(Entry {
                key,
                g,
                h,
                mark: Mark::Open,
                origin,
                goal,
            })
            .unwrap();
        self.keys
            .push(Known {
                best: number,
                sent: None,
            })
            .unwrap();
        self.goal = better_goal(self.goal, goal, g, number);
        Ok(Offer::Kept(number))
    }
}

/// Whether an entry costs g or less, expanded or not.
fn is_as_cheap(entry: &Entry<u64>, g: u64) -> bool
    ensures { result ≡ nat_le entry.now.g g }
{
    entry.g <= g
}

/// Whether there is a cost, and it is at most another.
fn is_at_most(cost: Option<u64>, g: u64) -> bool
    ensures { result ≡ is_at_most cost g }
{
    match cost {
        Some(cost) => cost <= g,
        None => false,
    }
}

/// The rank of an entry with this cost, this estimate and this number.
fn rank_of(g: u64, h: u64, number: u64) -> Rank
    requires { g + h < 2 ^ 60 }
    ensures { result ≡ record { f = g + h; h = h; number = number } }
{
    Rank {
        f: g + h,
        h,
        number,
    }
}

/// The least goal, when an entry of a higher number comes.
fn better_goal(goal: Option<(u64, u64)>, is_goal: bool, g: u64, number: u64) -> Option<(u64, u64)>
    ensures { result ≡ better_goal goal is_goal g number }
{
    if !is_goal {
        return goal;
    }
    match goal {
        Some((cost, first)) if cost <= g => Some((cost, first)),
        _ => Some((g, number)),
    }
}

/// Makes an entry give way to a cheaper one of its key: if it is open, it is so no longer.
fn give_way(entry: &mut Entry<u64>)
    ensures { entry.new ≡ given_way entry.old }
{
    if entry.mark == Mark::Open {
        entry.mark = Mark::Replaced;
    }
}

/// Whether an entry is still to be expanded.
fn is_waiting(entry: &Entry<u64>) -> bool
    ensures { result ≡ is_open entry.now.mark }
{
    entry.mark == Mark::Open
}

/// Whether the first rank, if there is one, is that of an open entry.
fn is_fresh(entries: &Vec<Entry<u64>>, ranks: &OpenList) -> bool
    requires { AreRanks entries.now.items ranks.now }
    ensures { result ≡ is_fresh entries.now.items (first_rank ranks.now) }
{
    match ranks.first() {
        Some(rank) => is_waiting(&entries[rank.number as usize]),
        None => true,
    }
}

/// Takes out first ranks until one is that of an open entry.
fn drop_stale(entries: &Vec<Entry<u64>>, ranks: &mut OpenList)
    requires { AreRanks entries.now.items ranks.old }
    ensures ranked { AreRanks entries.now.items ranks.new }
    ensures fresh { is_fresh entries.now.items (first_rank ranks.new) ≡ true }
{
    'stale: while !is_fresh(entries, ranks) {
        let _ = ranks.pop_first();
    }
}
