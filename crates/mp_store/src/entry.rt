//! Entries of a search, as callers see them.

ghost use Rattle.std.specs.Prelude.{◌≡◌, IfOk};
ghost use Rattle.mp_store.specs.Views.{seen_key};

use crate::key::Key;
use mp_list::{Copied, OutOfMemory};
use mp_sets::{Agent, Bits, BitsView, Tags};

/// Whether an entry may still be expanded.
#[derive(Clone, Copy, Debug, PartialEq, Eq)]
pub enum Mark {
    /// It may be expanded.
    Open,
    /// It was expanded.
    Expanded,
    /// It was open when a cheaper entry of its state came.
    Replaced,
}

/// Where an entry came from.
#[derive(Clone, Copy, Debug, PartialEq, Eq)]
pub enum Origin {
    /// It is the initial state.
    Root,
    /// An own action was applied to the state of an earlier entry.
    Own {
        /// The action's number.
        action: u32,
        /// The earlier entry's number.
        parent: u64,
    },
    /// Another agent sent the state.
    From {
        /// The sender.
        agent: Agent,
        /// The sent number that the state has there.
        sent: u64,
    },
}

/// What an offer of a state leads to.
#[derive(Clone, Copy, Debug, PartialEq, Eq)]
pub enum Offer {
    /// It was kept as the entry of this number.
    Kept(u64),
    /// An entry of that state costs as much or less.
    Worse,
}

/// A state that was reached, and at what cost. Contracts see a store as a record of these.
#[derive(Clone, Copy, Debug, PartialEq, Eq)]
pub struct Entry<K> {
    /// What tells the state from others.
    pub key: K,
    /// What it cost to reach it.
    pub g: u64,
    /// What it costs at least from there to a goal.
    pub h: u64,
    /// Whether it may still be expanded.
    pub mark: Mark,
    /// Where it came from.
    pub origin: Origin,
    /// Whether all goals hold in it.
    pub goal: bool,
}

/// A key whose parts stand in a store.
#[derive(Drop)]
pub struct KeyView<'a> {
    /// The true public facts.
    pub publics: BitsView<'a>,
    /// The index of the agent's own private set.
    pub mine: u64,
    /// A tag for each agent.
    pub tags: &'a Tags,
}

impl KeyView<'_> {
    /// The key with parts of its own.
    pub fn copy(&self) -> Result<Key, OutOfMemory>
        ensures { IfOk result (λ key. key ≡ seen_key self.now) }
    {
        Ok(Key {
            publics: Bits::from_view(&self.publics)?,
            mine: self.mine,
            tags: self.tags.copy()?,
        })
    }
}

/// An entry of a store.
#[derive(Drop)]
pub struct EntryView<'a> {
    /// The state.
    pub key: KeyView<'a>,
    /// What it cost to reach it.
    pub g: u64,
    /// What it costs at least from there to a goal.
    pub h: u64,
    /// Where it came from.
    pub origin: Origin,
}
