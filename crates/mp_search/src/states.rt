//! The states that an agent keeps.

ghost use Rattle.std.specs.Prelude.{◌↔◌, IsNone, ◌≡◌, ◌+◌, ◌<◌, ◌≤◌, ◌^◌, ◌∷◌, [], IfOk, OnOk, IsSomeAnd, IfSome, None, Some, OnErr, length, slice_get};
ghost use Rattle.mp_store.specs.Laws.{IsEarlier};
ghost use Rattle.mp_store.specs.Minima.{best, least_goal, least_f, popped};
ghost use Rattle.mp_store.specs.Record.{empty, f, is_known, offered};
ghost use Rattle.mp_store.specs.Sent.{mark_sent, sent_entry};
ghost use Rattle.mp_tokens.specs.Order.{with_set, place, set_at};
ghost use Rattle.mp_search.specs.AgentState.{same_state, AgentState};
ghost use Rattle.mp_search.specs.Search.{is_open_below, sent_sets};
ghost use Rattle.mp_search.specs.StateKeys.{entry_of, reached_state, HasSizes, IsShown, IsSent};

use crate::reached::Reached;
use mp_list::OutOfMemory;
use mp_sets::{Bits, BitsView, Tags};
use mp_store::{Offer, Origin, Store};
use mp_tokens::Tokens;
use std::alloc::Global;
use std::marker::Model;

/// An entry whose own set is there itself.
#[derive(Drop)]
pub struct Shown<'a> {
    /// The public facts that are true.
    pub publics: BitsView<'a>,
    /// The own private facts that are true.
    pub mine: BitsView<'a>,
    /// A tag for each agent.
    pub tags: &'a Tags,
    /// What it cost to reach the state.
    pub g: u64,
    /// What it costs at least from there to a goal.
    pub h: u64,
}

/// How a state that is offered was reached.
#[derive(Clone, Copy)]
pub(crate) struct Arrival {
    /// What it cost to reach the state.
    pub(crate) g: u64,
    /// What it costs at least from there to a goal.
    pub(crate) h: u64,
    /// Where it came from.
    pub(crate) origin: Origin,
}

/// The states that an agent keeps: in the keys of the store an index stands for each own private set. Contracts see
/// the record of the states themselves.
#[derive(Drop)]
pub(crate) struct States {
    /// The size of all sets of public facts.
    publics: u32,
    pub(crate) tokens: Tokens,
    pub(crate) store: Store,
}

impl Model for States {
    ghost use Rattle.mp_search.specs.StateKeys.{KeptStates, kept_states, AreStates};

    ghost Value = { KeptStates };

    ghost use Rattle.std.specs.Coded.{codes};
    ghost use Rattle.mp_search.specs.StateKeys.{coded_numbers};

    ghost coded = { Prim.hlevel (codes, coded_numbers) };

    ghost view = { kept_states };

    ghost invariant = { AreStates };
}

impl States {
    /// No states yet. The initial own set has the token 0.
    pub(crate) fn new(alloc: Global, publics: u32, start: Bits) -> Result<States, OutOfMemory>
        ensures { IfOk result (λ made. made ≡ record {
          publics = publics;
          privates = start.size;
          kept = empty;
          used = start.members ∷ [];
        }) }
    {
        Ok(States {
            publics,
            tokens: Tokens::new(alloc, start)?,
            store: Store::new(alloc),
        })
    }

    /// Whether an open entry is worth an expansion.
    pub(crate) fn is_open_below(&self) -> bool
        ensures { result ≡ is_open_below self.now.kept }
    {
        let Some(least) = self.store.least_f() else {
            return false;
        };
        match self.store.least_goal() {
            Some((goal, _)) => least < goal,
            None => true,
        }
    }

    /// Closes the least open entry, and gives its number.
    pub(crate) fn pop_least(&mut self) -> Option<u64>
        ensures popped { (result, self.new.kept) ≡ popped self.old.kept }
        ensures used { self.new.used ≡ self.old.used }
        ensures sets { sent_sets self.new.kept ≡ sent_sets self.old.kept }
        ensures publics { self.new.publics ≡ self.old.publics }
        ensures privates { self.new.privates ≡ self.old.privates }
    {
        self.store.pop_least()
    }

    /// The best entry of a state: none exactly where it has no entry. Writes the index of the own set into the key.
    pub(crate) fn best(&self, state: &mut Reached) -> Option<u64>
        requires { HasSizes self.now.publics self.now.privates state.old }
        ensures best { result ≡ best same_state (reached_state state.old) self.now.kept }
        ensures inside { IfSome result (λ n. n < length self.now.kept.entries) }
        ensures state { reached_state state.new ≡ reached_state state.old }
        ensures sizes { HasSizes self.now.publics self.now.privates state.new }
    {
        let Some(index) = self.tokens.index_of(&state.mine) else {
            return None;
        };
        state.key.mine = index;
        self.store.best(&state.key)
    }

    /// Whether there is an entry, and it costs g or less: where it is the best one of a state, some entry of the state does.
    pub(crate) fn is_as_cheap(&self, found: Option<u64>, g: u64) -> bool
        requires { IfSome found (λ n. n < length self.now.kept.entries) }
        ensures { (s : AgentState) → found ≡ best same_state s self.now.kept
            → result ≡ is_known same_state s g self.now.kept.entries }
    {
        match found {
            Some(number) => self.store.cost(number) <= g,
            None => false,
        }
    }

    /// Offers a state whose best entry is known, if it has one: it is worse exactly where that costs g or less. Takes no
    /// look-up of the state. Memory is taken for what is kept alone.
    pub(crate) fn offer(
        &mut self,
        state: &mut Reached,
        found: Option<u64>,
        arrival: Arrival,
        goal: bool,
    ) -> Result<Offer, OutOfMemory>
        requires found { found ≡ best same_state (reached_state state.old) self.old.kept }
        requires sizes { HasSizes self.old.publics self.old.privates state.old }
        requires bounded { arrival.g + arrival.h < 2 ^ 60 }
        requires parent { IsEarlier (length self.old.kept.entries) arrival.origin }
        ensures offered { IfOk result (λ answer. (answer, self.new.kept)
            ≡ offered same_state (entry_of (reached_state state.old) arrival goal) self.old.kept) }
        ensures used { self.new.used ≡ self.old.used }
        ensures publics { self.new.publics ≡ self.old.publics }
        ensures privates { self.new.privates ≡ self.old.privates }
        ensures sets { OnOk result (sent_sets self.new.kept ≡ sent_sets self.old.kept) }
        ensures longer { OnOk result (length self.old.kept.entries ≤ length self.new.kept.entries) }
        ensures state { reached_state state.new ≡ reached_state state.old }
        ensures sizes { HasSizes self.new.publics self.new.privates state.new }
    {
        match found {
            Some(entry) => self.offer_again(state, entry, arrival, goal),
            None => self.offer_new(state, arrival, goal),
        }
    }

    /// Offers a state whose best entry is known.
    fn offer_again(
        &mut self,
        state: &Reached,
        entry: u64,
        arrival: Arrival,
        goal: bool,
    ) -> Result<Offer, OutOfMemory>
        requires best { best same_state (reached_state state.now) self.old.kept ≡ Some entry }
        requires bounded { arrival.g + arrival.h < 2 ^ 60 }
        requires parent { IsEarlier (length self.old.kept.entries) arrival.origin }
        ensures offered { IfOk result (λ answer. (answer, self.new.kept)
            ≡ offered same_state (entry_of (reached_state state.now) arrival goal) self.old.kept) }
        ensures used { self.new.used ≡ self.old.used }
        ensures publics { self.new.publics ≡ self.old.publics }
        ensures privates { self.new.privates ≡ self.old.privates }
        ensures sets { OnOk result (sent_sets self.new.kept ≡ sent_sets self.old.kept) }
        ensures longer { OnOk result (length self.old.kept.entries ≤ length self.new.kept.entries) }
    {
        let _ = self.store.count();
        let _ = state;
        self.store
            .offer_again(entry, arrival.g, arrival.h, arrival.origin, goal)
    }

    /// Offers a state that has no entry. Writes the index of the own set into the key.
    fn offer_new(
        &mut self,
        state: &mut Reached,
        arrival: Arrival,
        goal: bool,
    ) -> Result<Offer, OutOfMemory>
        requires new { best same_state (reached_state state.old) self.old.kept ≡ None }
        requires sizes { HasSizes self.old.publics self.old.privates state.old }
        requires bounded { arrival.g + arrival.h < 2 ^ 60 }
        requires parent { IsEarlier (length self.old.kept.entries) arrival.origin }
        ensures offered { IfOk result (λ answer. (answer, self.new.kept)
            ≡ offered same_state (entry_of (reached_state state.old) arrival goal) self.old.kept) }
        ensures used { self.new.used ≡ self.old.used }
        ensures publics { self.new.publics ≡ self.old.publics }
        ensures privates { self.new.privates ≡ self.old.privates }
        ensures sets { OnOk result (sent_sets self.new.kept ≡ sent_sets self.old.kept) }
        ensures longer { OnOk result (length self.old.kept.entries ≤ length self.new.kept.entries) }
        ensures state { reached_state state.new ≡ reached_state state.old }
        ensures sizes { HasSizes self.new.publics self.new.privates state.new }
    {
        let _ = self.store.count();
        give_index(&mut self.tokens, state)?;
        self.store
            .keep_new(&state.key, arrival.g, arrival.h, arrival.origin, goal)
    }

    /// Notes that the state of an entry is sent, and gives it the next sent number, and the token of its own set: none
    /// exactly where that state was sent at that cost or less.
    pub(crate) fn send(&mut self, entry: u64) -> Result<Option<(u64, u64)>, OutOfMemory>
        requires { entry < length self.old.kept.entries }
        ensures sent { IfOk result (λ answer. IsSent entry answer self.old self.new) }
        ensures publics { self.new.publics ≡ self.old.publics }
        ensures privates { self.new.privates ≡ self.old.privates }
    {
        let index = self.store.entry(entry).key.mine;
        let Some(number) = self.store.mark_sent(entry)? else {
            return Ok(None);
        };
        let token = self.tokens.token_of(index)?;
        Ok(Some((number, token)))
    }

    /// The own set with a token: none exactly where no set has it.
    pub(crate) fn own_set(&self, token: u64) -> Option<BitsView<'_>>
        ensures none { IsNone result ↔ (length self.now.used ≤ token) }
        ensures some { IfSome result (λ mine. mine
            ≡ record { size = self.now.privates; members = set_at self.now.used token }) }
    {
        match self.tokens.set_of(token) {
            Some(index) => Some(self.tokens.set(index)),
            None => None,
        }
    }

    /// The entry of a number.
    pub(crate) fn entry(&self, number: u64) -> Shown<'_>
        requires { number < length self.now.kept.entries }
        ensures entry { IsSomeAnd (slice_get self.now.kept.entries number) (IsShown result) }
        ensures bounded { result.g + result.h < 2 ^ 60 }
        ensures publics { result.publics.size ≡ self.now.publics }
        ensures privates { result.mine.size ≡ self.now.privates }
    {
        let _ = self.store.count();
        let entry = self.store.entry(number);
        Shown {
            mine: self.tokens.set(entry.key.mine),
            publics: entry.key.publics,
            tags: entry.key.tags,
            g: entry.g,
            h: entry.h,
        }
    }
}

/// Writes the index of a state's own set into its key. A set that has none gets the next one.
fn give_index(tokens: &mut Tokens, state: &mut Reached) -> Result<(), OutOfMemory>
    requires { state.old.mine.size ≡ tokens.old.size }
    ensures ok { OnOk result (tokens.new
        ≡ record tokens.old { sets = with_set tokens.old.sets state.old.mine.members }) }
    ensures err { OnErr result (tokens.new ≡ tokens.old) }
    ensures index { OnOk result (state.new.key.mine < length tokens.new.sets
        × (set_at tokens.new.sets state.new.key.mine ≡ state.old.mine.members)) }
    ensures publics { state.new.key.publics ≡ state.old.key.publics }
    ensures tags { state.new.key.tags ≡ state.old.key.tags }
    ensures mine { state.new.mine ≡ state.old.mine }
{
    state.key.mine = tokens.intern_copy(&state.mine)?;
    Ok(())
}
