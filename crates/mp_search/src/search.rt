//! The search of one agent.

ghost use Rattle.std.specs.Prelude.{◌≡◌, ◌≢◌, ◌+◌, ◌<◌, ◌≤◌, ◌^◌, true, false, length, slice_get, Err, IfOk, IsFalse, IsSomeAnd};
ghost use Rattle.mp_task.specs.Limits.{most_expansions};
ghost use Rattle.mp_search.specs.Answers.{IsExpansion, IsReceipt, IsReceiptOfBytes};
ghost use Rattle.mp_search.specs.Offering.{start_record};
ghost use Rattle.mp_search.specs.Receipt.{IsStateFor};
ghost use Rattle.mp_search.specs.Search.{is_open_below, is_spent, may_expand, tokens_given, AgentSearch};
ghost use Rattle.mp_search.specs.StateKeys.{IsShown};
ghost use Rattle.mp_search.specs.StoreSeen.{HasEntriesOf};
ghost use Rattle.mp_search.specs.Steps.{AreStatesOf, IsContext};

use crate::answer::{ExpandRefusal, ReceiveRefusal, Received, SendingList};
use crate::context::{Context, Progress};
use crate::expansion::{Scratch, expand_least, scratch_for};
use crate::offering::offer;
use crate::reached::Reached;
use crate::receipt::{receive_bytes, receive_state};
use crate::sending::start_state;
use crate::states::{Arrival, Shown, States};
use mp_applicable::{ActionIndex, FarIndex};
use mp_list::{Copied, OutOfMemory};
use mp_messages::State;
use mp_sets::Agent;
use mp_store::{Origin, Store};
use mp_task::{Heuristic, Task};
use mp_tokens::Tokens;
use std::alloc::Global;
use std::marker::Model;

/// The search of one agent in its task, with a heuristic that was made of that task. Contracts see it as the plain
/// record of what it did.
pub struct Search<H: Heuristic> {
    context: Context,
    progress: Progress<H>,
    /// How many entries it may expand.
    limit: u64,
    scratch: Scratch,
    /// Where states from other agents are read, so that they take no memory of their own.
    came: Reached,
    /// How many entries it expanded.
    expansions: u64,
    /// Memory ran out before.
    failed: bool,
}

impl<H: Heuristic> Drop for Search<H> {
    fn drop(self) {
        let Search {
            context: _,
            progress: _,
            limit: _,
            scratch: _,
            came: _,
            expansions: _,
            failed: _,
        } = self;
    }
}

impl<H: Heuristic> Model for Search<H> {
    ghost use Rattle.mp_search.specs.Search.{AgentSearch};
    ghost use Rattle.mp_search.specs.SearchFields.{agent_search, IsSearch};

    ghost Value = { AgentSearch };

    ghost use Rattle.std.specs.Coded.{codes};
    ghost use Rattle.mp_search.specs.StateKeys.{coded_numbers};

    ghost coded = { Prim.hlevel (codes, coded_numbers) };

    ghost view = { λ s. agent_search s.context.task s.limit s.progress.states s.expansions s.failed };

    ghost invariant = { λ s. IsSearch (H.is_for s.progress.heuristic) s.context s.limit s.progress.states s.scratch s.came s.expansions s.failed };
}

/// The states that are kept at the start: the initial one, unless no plan leads on from it.
fn start_states<H: Heuristic>(
    alloc: Global,
    task: &Task,
    heuristic: &mut H,
) -> Result<States, OutOfMemory>
    requires heuristic { H.is_for heuristic.old task.now }
    ensures kept { IfOk result (λ made. made.kept ≡ (start_record task.now (H.value task.now)).kept) }
    ensures states { IfOk result (AreStatesOf task.now) }
    ensures heuristic { H.is_for heuristic.new task.now }
{
    let mut state = start_state(alloc, task)?;
    let mut states = States::new(alloc, task.publics, state.mine.copy()?)?;
    let Some(h) = heuristic.value(&state.key.publics, &state.mine)? else {
        return Ok(states);
    };
    let arrival = Arrival {
        g: 0,
        h,
        origin: Origin::Root,
    };
    offer(task, &mut states, &mut state, arrival)?;
    Ok(states)
}

/// What a search in a task looks at.
fn context_of(alloc: Global, task: Task) -> Result<Context, OutOfMemory>
    ensures task { IfOk result (λ made. made.task ≡ task) }
    ensures context { IfOk result IsContext }
{
    let actions = ActionIndex::new(alloc, &task)?;
    let far = FarIndex::new(alloc, &task)?;
    Ok(Context {
        alloc,
        task,
        actions,
        far,
    })
}

impl<H: Heuristic> Search<H> {
    /// The search that knows the initial state alone. The limit is from 1 to 10,000,000, and the heuristic was made of
    /// an equal task.
    pub fn new(
        alloc: Global,
        task: Task,
        heuristic: H,
        limit: u64,
    ) -> Result<Search<H>, OutOfMemory>
        requires from_1 { 1 ≤ limit }
        requires limit { limit ≤ most_expansions }
        requires heuristic { H.is_for heuristic task }
        ensures { IfOk result (λ made. made ≡ record {
          task = task;
          limit = limit;
          done = start_record task (H.value task);
          failed = false;
        }) }
    {
        let mut heuristic = heuristic;
        let states = start_states(alloc, &task, &mut heuristic)?;
        let scratch = scratch_for(alloc, &task)?;
        let came = start_state(alloc, &task)?;
        Ok(Search {
            context: context_of(alloc, task)?,
            progress: Progress { heuristic, states },
            limit,
            scratch,
            came,
            expansions: 0,
            failed: false,
        })
    }

    /// Whether it has an open entry that is worth an expansion, and has expanded fewer entries than it may.
    pub fn can_expand(&self) -> bool
        ensures { result ≡ may_expand self.now.limit self.now.done }
    {
        !self.spent() && self.progress.states.is_open_below()
    }

    /// Whether it has expanded as many entries as it may.
    pub fn spent(&self) -> bool
        ensures { result ≡ is_spent self.now.limit self.now.done }
    {
        self.expansions == self.limit
    }

    /// How many entries it expanded.
    pub fn expanded(&self) -> u64
        ensures { result ≡ self.now.done.expansions }
    {
        self.expansions
    }

    /// The store, whose keys have indices of own private sets. The record has the sets themselves.
    pub fn store(&self) -> &Store
        ensures { HasEntriesOf result.now self.now.done.kept }
    {
        &self.progress.states.store
    }

    /// The entry of a number, with its own private set itself.
    pub fn entry(&self, number: u64) -> Shown<'_>
        requires { number < length self.now.done.kept.entries }
        ensures entry { IsSomeAnd (slice_get self.now.done.kept.entries number) (IsShown result) }
        ensures bounded { result.g + result.h < 2 ^ 60 }
        ensures publics { IsFalse self.now.failed → result.publics.size ≡ self.now.task.publics }
        ensures privates { IsFalse self.now.failed → result.mine.size ≡ self.now.task.privates }
    {
        self.progress.states.entry(number)
    }

    /// The own private sets, by their indices and by their tokens.
    pub fn tokens(&self) -> &Tokens
        ensures used { IsFalse self.now.failed → result.now.used ≡ tokens_given self.now.task self.now.done.kept }
        ensures size { IsFalse self.now.failed → result.now.size ≡ self.now.task.privates }
    {
        &self.progress.states.tokens
    }

    /// Expands the least open entry, and answers what is to be sent, in this order. Without memory, now or before, it
    /// answers so.
    pub fn expand(&mut self) -> Result<SendingList, ExpandRefusal>
        ensures { IsExpansion (H.value self.old.task) self.old result self.new }
    {
        if self.failed {
            return Err(ExpandRefusal::OutOfMemory);
        }
        if self.spent() {
            return Err(ExpandRefusal::AtLimit);
        }
        if !self.progress.states.is_open_below() {
            return Err(ExpandRefusal::Nothing);
        }
        match expand_least(&self.context, &mut self.progress, &mut self.scratch) {
            Ok(sendings) => {
                self.expansions += 1;
                Ok(sendings)
            }
            Err(_) => {
                self.failed = true;
                Err(ExpandRefusal::OutOfMemory)
            }
        }
    }

    /// Receives a state from another agent of the team. Without memory, now or before, it answers so.
    pub fn receive(&mut self, from: Agent, state: State) -> Result<Received, ReceiveRefusal>
        requires team { from ≤ self.old.task.agents }
        requires other { from ≢ self.old.task.me }
        requires state { IsStateFor self.old.task state }
        ensures { IsReceipt (H.value self.old.task) self.old from state result self.new }
    {
        if self.failed {
            return Err(ReceiveRefusal::OutOfMemory);
        }
        let answer = receive_state(
            self.context.alloc,
            &self.context.task,
            &mut self.progress,
            from,
            &state,
        );
        if let Err(ReceiveRefusal::OutOfMemory) = answer {
            self.failed = true;
        }
        answer
    }

    /// Receives the state that bytes from another agent of the team spell, and tells the sum of its cost and estimate.
    /// None exactly where they spell no state, and nothing changes then. Without memory, now or before, it answers so.
    pub fn receive_bytes(
        &mut self,
        from: Agent,
        bytes: &[u8],
    ) -> Result<Option<(Received, u64)>, ReceiveRefusal>
        requires team { from ≤ self.old.task.agents }
        requires other { from ≢ self.old.task.me }
        ensures { IsReceiptOfBytes (H.value self.old.task) self.old from bytes.now result self.new }
    {
        if self.failed {
            return Err(ReceiveRefusal::OutOfMemory);
        }
        let answer = receive_bytes(
            &self.context.task,
            &mut self.progress,
            &mut self.came,
            from,
            bytes,
        );
        if let Err(ReceiveRefusal::OutOfMemory) = answer {
            self.failed = true;
        }
        answer
    }
}
