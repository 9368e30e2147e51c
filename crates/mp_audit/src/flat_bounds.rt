//! Certificates whose entries take little memory.

ghost use Rattle.std.specs.Prelude.{◌≡◌, ◌++◌, ◌∷◌, [], ◌+◌, ◌<◌, length, option_map, slice_get, slice_index_or, IfOk, IfSome, Some};
ghost use Rattle.std.specs.List.Sorted.{IsStrictlyIncreasing};
ghost use Rattle.mp_audit.specs.Flat.{entry_of};

use crate::flat_lists::{FlatLists, ListsPart};
use mp_list::OutOfMemory;
use mp_sets::Agent;
use std::alloc::Global;
use std::marker::Model;

/// An entry of a certificate whose facts are kept elsewhere. Contracts see it as the entry.
#[derive(Drop)]
pub struct FlatBound<'a> {
    agent: Agent,
    bound: u64,
    /// The public facts, and behind them the private facts of each agent.
    lists: ListsPart<'a>,
}

impl<'a> Model for FlatBound<'a> {
    ghost use Rattle.std.specs.Prelude.{◌<◌, length};
    ghost use Rattle.mp_audit.specs.declared.certificate.Bound.{Bound};
    ghost use Rattle.mp_audit.specs.Flat.{entry_of};

    ghost Value = { Bound };

    ghost view = { λ b. entry_of b.agent b.bound b.lists };

    ghost invariant = { λ b. 0 < length b.lists };
}

impl<'a> FlatBound<'a> {
    /// The agent in whose search the state stands.
    pub fn agent(&self) -> Agent
        ensures { result ≡ self.now.agent }
    {
        self.agent
    }

    /// What is to be paid from there on at least, until all goals are true.
    pub fn bound(&self) -> u64
        ensures { result ≡ self.now.bound }
    {
        self.bound
    }

    /// The public facts that are true.
    pub fn publics(&self) -> &'a [u32]
        ensures publics { result.now ≡ self.now.publics }
        ensures rising { IsStrictlyIncreasing result.now }
    {
        self.lists.list(0)
    }

    /// How many lists of private facts there are, one for each agent.
    pub fn agents(&self) -> usize
        ensures { result ≡ length self.now.privates }
    {
        self.lists.len() - 1
    }

    /// The private facts that are true of the agent in a place, counted from 0: none exactly where there are not more
    /// agents than that.
    pub fn privates(&self, place: usize) -> Option<&'a [u32]>
        ensures privates { option_map (λ facts. facts.now) result ≡ slice_get self.now.privates place }
        ensures rising { IfSome result (λ facts. IsStrictlyIncreasing facts.now) }
    {
        if place < self.agents() {
            Some(self.privates_at(place))
        } else {
            None
        }
    }

    /// The private facts that are true of the agent in a place.
    pub(crate) fn privates_at(&self, place: usize) -> &'a [u32]
        requires { place < length self.now.privates }
        ensures privates { slice_get self.now.privates place ≡ Some result.now }
        ensures is { result.now ≡ slice_index_or self.now.privates place result.now }
        ensures rising { IsStrictlyIncreasing result.now }
    {
        self.lists.behind(place)
    }
}

/// Entries of a certificate for a team of so many agents, whose lists lie one behind another.
#[derive(Drop)]
pub struct FlatBounds {
    agents: usize,
    /// The agent of each entry.
    searchers: Vec<Agent>,
    /// The bound of each entry.
    bounds: Vec<u64>,
    /// For each entry its public facts, and behind them the private facts of each agent of the team.
    lists: FlatLists,
}

impl Model for FlatBounds {
    ghost use Rattle.std.specs.Prelude.{◌+◌};
    ghost use Rattle.mp_audit.specs.Flat.{entries_of, AreEntries, FlatParts};

    ghost Value = { FlatParts };

    ghost view = { λ f. record {
      agents = f.agents;
      entries = entries_of (f.agents + 1) f.searchers.items f.bounds.items f.lists;
    } };

    ghost invariant = { λ f. AreEntries (f.agents + 1) f.searchers.items f.bounds.items f.lists };
}

impl FlatBounds {
    /// No entries, for a team of so many agents. They take no memory yet.
    pub fn new(alloc: Global, agents: usize) -> FlatBounds
        ensures { result ≡ record { agents = agents; entries = [] } }
    {
        FlatBounds {
            agents,
            searchers: Vec::new(alloc),
            bounds: Vec::new(alloc),
            lists: FlatLists::new(alloc),
        }
    }

    /// How many entries there are.
    pub fn len(&self) -> usize
        ensures { result ≡ length self.now.entries }
    {
        self.searchers.len()
    }

    /// These entries and one more at the end: its agent, its bound, and the list of its public facts with the private
    /// ones of each agent behind it. Refuses only for want of memory.
    pub fn with(
        self,
        agent: Agent,
        bound: u64,
        lists: &FlatLists,
    ) -> Result<FlatBounds, OutOfMemory>
        requires { length lists.now ≡ self.agents + 1 }
        ensures { IfOk result (λ made. made
            ≡ record self { entries = self.entries ++ entry_of agent bound lists.now ∷ [] }) }
    {
        let FlatBounds {
            agents,
            mut searchers,
            mut bounds,
            lists: mut all,
        } = self;
        searchers.push(agent)?;
        bounds.push(bound)?;
        all.extend(lists)?;
        Ok(FlatBounds {
            agents,
            searchers,
            bounds,
            lists: all,
        })
    }

    /// The entry in a place, counted from 0: none exactly where there are not more entries than that.
    pub fn get(&self, at: usize) -> Option<FlatBound<'_>>
        ensures { result ≡ slice_get self.now.entries at }
    {
        if at < self.len() {
            Some(self.entry(at))
        } else {
            None
        }
    }

    /// The entry in a place.
    pub(crate) fn entry(&self, at: usize) -> FlatBound<'_>
        requires { at < length self.now.entries }
        ensures entry { slice_get self.now.entries at ≡ Some result }
        ensures is { result ≡ slice_index_or self.now.entries at result }
    {
        let _ = self.lists.len();
        let count = self.agents + 1;
        FlatBound {
            agent: self.searchers[at],
            bound: self.bounds[at],
            lists: self.lists.part(at * count, count),
        }
    }
}

/// A certificate whose entries take little memory.
#[derive(Drop)]
pub struct FlatCertificate {
    /// What each plan is to cost at least.
    pub cost: u64,
    /// What is to be paid at least, by agents and joint states.
    pub bounds: FlatBounds,
}
