//! One agent as a pure step.

ghost use Rattle.std.specs.Prelude.{◌≡◌, ◌≤◌, true, IfOk, IsFalse, None, option_map};
ghost use Rattle.mp_task.specs.Limits.{most_expansions};
ghost use Rattle.mp_machine.specs.AgentRecord.{given_verdict, new_record};
ghost use Rattle.mp_machine.specs.LocalStep.{may};
ghost use Rattle.mp_machine.specs.Machine.{given, IsStep};
ghost use Rattle.mp_machine.specs.MachineFields.{IsSearchOf};
ghost use Rattle.mp_machine.specs.Verdicts.{proved_cost};

use crate::acting::{act, cost_of, may};
use crate::event::{Ending, Local};
use crate::member::{Member, new_member};
use crate::outgoing::Outs;
use crate::refusal::StepRefusal;
use mp_list::OutOfMemory;
use mp_search::Search;
use mp_task::{Heuristic, Task};
use mp_trail::Share;
use std::alloc::Global;
use std::marker::Model;

/// The bytes that are given, and none where none are.
fn taken_bytes(bytes: Option<&[u8]>) -> &[u8]
    ensures { result.now ≡ given (option_map (λ b. b.now) bytes.entry) }
{
    match bytes {
        Some(given) => given,
        None => "".as_bytes(),
    }
}

/// One agent of a team: its search, its part in snapshots and its part in walking the plan back.
/// Contracts see it as the plain record of what it did, and what it refuses every step with, once
/// it does.
pub struct Machine<H: Heuristic> {
    search: Search<H>,
    member: Member,
    stopped: Option<StepRefusal>,
}

impl<H: Heuristic> Drop for Machine<H> {
    fn drop(self) {
        let Machine {
            search: _,
            member: _,
            stopped: _,
        } = self;
    }
}

impl<H: Heuristic> Model for Machine<H> {
    ghost use Rattle.mp_machine.specs.Machine.{AgentMachine};
    ghost use Rattle.mp_machine.specs.MachineFields.{agent_machine, IsMachine};

    ghost Value = { AgentMachine };

    ghost use Rattle.std.specs.Coded.{codes};
    ghost use Rattle.mp_search.specs.StateKeys.{coded_numbers};

    ghost coded = { Prim.hlevel (codes, coded_numbers) };

    ghost view = { λ m. agent_machine m.search m.member m.stopped };

    ghost invariant = { λ m. IsMachine m.search m.member m.stopped };
}

impl<H: Heuristic> Machine<H> {
    /// An agent at the start. The limit is from 1 to 10,000,000, and the heuristic was made of an
    /// equal task.
    pub fn new(
        alloc: Global,
        task: Task,
        heuristic: H,
        limit: u64,
    ) -> Result<Machine<H>, OutOfMemory>
        requires from_1 { 1 ≤ limit }
        requires limit { limit ≤ most_expansions }
        requires heuristic { H.is_for heuristic task }
        ensures { IfOk result (λ made. made ≡ record {
          done = new_record task (H.value task) limit;
          stopped = None;
        }) }
    {
        let member = new_member(alloc, &task);
        let search = Search::new(alloc, task, heuristic, limit)?;
        Ok(Machine {
            search,
            member,
            stopped: None,
        })
    }

    /// Whether an event may happen.
    pub fn can(&self, event: &Local) -> bool
        ensures { result ≡ may self.now.done event.now }
    {
        may(&self.search, &self.member, event)
    }

    /// Takes a step at an event that may happen, with the bytes of the oldest message of another
    /// agent, if one is taken: the messages that go out, in this order.
    ///
    /// It refuses with `NotNow` exactly where the event may not happen, and then nothing changed.
    /// It refuses with `Bad` exactly where the message that is taken is a bad one for this agent,
    /// by what it has done so far, and tells the first kind that the message is of, in the order
    /// of `BadKind`; the same bytes may be a good message for an agent that has done something
    /// else. After `Bad`, and after want of memory, it refuses every step in the same way.
    pub fn step(&mut self, event: Local, bytes: Option<&[u8]>) -> Result<Outs, StepRefusal>
        ensures { IsStep (H.value self.old.done.task) self.old event
            (given (option_map (λ b. b.now) bytes.entry)) result self.new }
    {
        if let Some(refusal) = self.stopped {
            return Err(refusal);
        }
        if !may(&self.search, &self.member, &event) {
            return Err(StepRefusal::NotNow);
        }
        self.step_allowed(event, bytes)
    }

    /// The same step, where the machine is not stopped and the event may happen: neither is asked again.
    pub fn step_allowed(&mut self, event: Local, bytes: Option<&[u8]>) -> Result<Outs, StepRefusal>
        requires free { self.old.stopped ≡ None }
        requires may { may self.old.done event ≡ true }
        ensures { IsStep (H.value self.old.done.task) self.old event
            (given (option_map (λ b. b.now) bytes.entry)) result self.new }
    {
        let taken = taken_bytes(bytes);
        match act(&mut self.search, &mut self.member, &event, taken) {
            Ok(outs) => Ok(outs),
            Err(refusal) => {
                self.stopped = Some(refusal);
                Err(refusal)
            }
        }
    }

    /// How far the agent is.
    pub fn ending(&self) -> Ending
        ensures { result ≡ self.now.done.ending }
    {
        self.member.ending
    }

    /// The cost of the plan that agent 1 has proved to be cheapest: none at another agent, and
    /// before that.
    pub fn cost(&self) -> Option<u64>
        ensures { result ≡ proved_cost (given_verdict self.now.done) }
    {
        cost_of(&self.search, &self.member)
    }

    /// The agent's actions of the plan with their times: empty unless the search is solved.
    pub fn share(&self) -> &Share
        ensures { result.now ≡ self.now.done.share }
    {
        &self.member.share
    }

    /// How many entries it expanded.
    pub fn expanded(&self) -> u64
        ensures { result ≡ self.now.done.search.expansions }
    {
        self.search.expanded()
    }

    /// How many entries it had when it noted what it found for its last snapshot, and 0 before the
    /// first.
    pub fn noted(&self) -> u64
        ensures { result ≡ self.now.done.noted }
    {
        self.member.noted
    }

    /// Its search, which has not failed as long as no step has stopped the machine.
    pub fn search(&self) -> &Search<H>
        ensures of { IsSearchOf result.now self.now.done }
        ensures works { self.now.stopped ≡ None → IsFalse result.now.failed }
    {
        &self.search
    }
}
