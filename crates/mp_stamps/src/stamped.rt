//! What agents did, with stamps.

ghost use Rattle.std.specs.Prelude.{◌≡◌, ◌<◌, ◌++◌, ◌∷◌, [], length, replicate, slice_index_or, slice_set, IfOk, OnErr, OnOk};
ghost use Rattle.mp_stamps.specs.Lists.{clock};

use mp_list::OutOfMemory;
use mp_messages::Entry;
use std::alloc::Global;
use std::marker::Model;

/// An entry of an agent with its stamp. Along an agent's list stamps rise.
#[derive(Drop)]
pub struct Stamped {
    /// The stamp.
    pub stamp: u64,
    /// What the agent did.
    pub entry: Entry,
}

/// What one agent did, with stamps. Contracts see it as the list of its entries.
#[derive(Drop)]
pub struct StampedList {
    items: Vec<Stamped>,
}

impl Model for StampedList {
    ghost use Rattle.std.specs.Prelude.{List};
    ghost use Rattle.mp_stamps.specs.declared.stamped.Stamped.{Stamped as Item};

    ghost Value = { List Item };

    ghost view = { λ l. l.items.items };
}

impl StampedList {
    /// The empty list, which takes no memory yet.
    pub fn new(alloc: Global) -> StampedList
        ensures { result ≡ [] }
    {
        StampedList {
            items: Vec::new(alloc),
        }
    }

    /// The list of these entries.
    pub fn from_items(items: Vec<Stamped>) -> StampedList
        ensures { result ≡ items.items }
    {
        StampedList { items }
    }

    /// The entries themselves, for whoever has no more use for the list.
    pub fn into_items(self) -> Vec<Stamped>
        ensures { result.items ≡ self }
    {
        self.items
    }

    /// Adds an entry at the end. For want of memory the list stays as it was.
    pub fn push(&mut self, item: Stamped) -> Result<(), OutOfMemory>
        ensures ok { OnOk result (self.new ≡ self.old ++ item ∷ []) }
        ensures err { OnErr result (self.new ≡ self.old) }
    {
        self.items.push(item)?;
        Ok(())
    }

    /// The number of entries.
    pub fn len(&self) -> usize
        ensures { result ≡ length self.now }
    {
        self.items.len()
    }

    /// The entries, first one first.
    pub fn as_slice(&self) -> &[Stamped]
        ensures { result.now ≡ self.now }
    {
        self.items.as_slice()
    }
}

/// The lists of a team, that of agent 1 first. Contracts see them as the list of the lists.
#[derive(Drop)]
pub struct StampedLists {
    lists: Vec<StampedList>,
}

impl Model for StampedLists {
    ghost use Rattle.std.specs.Prelude.{List};
    ghost use Rattle.mp_stamps.specs.declared.stamped.Stamped.{Stamped as Item};

    ghost Value = { List (List Item) };

    ghost view = { λ l. l.lists.items };
}

impl StampedLists {
    /// An empty list for each of so many agents. Refuses only for want of memory.
    pub fn new(alloc: Global, agents: usize) -> Result<StampedLists, OutOfMemory>
        ensures { IfOk result (λ lists. lists ≡ replicate agents []) }
    {
        let mut lists = Vec::with_capacity(alloc, agents)?;
        for _ in 0..agents {
            lists.push(StampedList::new(alloc))?;
        }
        Ok(StampedLists { lists })
    }

    /// The number of lists.
    pub fn len(&self) -> usize
        ensures { result ≡ length self.now }
    {
        self.lists.len()
    }

    /// Puts a list in the place of another, which comes back. Places count from 0.
    pub fn replace(&mut self, at: usize, list: StampedList) -> StampedList
        requires { at < length self.old }
        ensures old { result ≡ slice_index_or self.old at [] }
        ensures new { self.new ≡ slice_set self.old at list }
    {
        std::mem::replace(&mut self.lists[at], list)
    }

    /// The lists themselves, that of agent 1 first.
    pub(crate) fn into_lists(self) -> Vec<StampedList>
        ensures { result.items ≡ self }
    {
        self.lists
    }

    pub(crate) fn allocator(&self) -> Global {
        *self.lists.allocator()
    }

    /// The lists, that of agent 1 first.
    pub fn as_slice(&self) -> &[StampedList]
        ensures { result.now ≡ self.now }
    {
        self.lists.as_slice()
    }
}
