//! Messages that a node takes.

ghost use Rattle.std.specs.Prelude.{◌≡◌, ◌≢◌, ◌≤◌, ◌<◌, ℕ, None, true};
ghost use Rattle.atomic_table.specs.Seated.{TableId};
ghost use Rattle.mp_machine.specs.LocalStep.{may};
ghost use Rattle.mp_machine.specs.declared.event.Local.TheVariants as locals;
ghost use Rattle.mp_nodes.specs.Steps.{GoesOn, IsHandedAt, IsReady, IsSameAgent, Leaves, me_of};
ghost use Rattle.mp_post.specs.Desks.{SeenDesk};
ghost use Rattle.mp_post_rule.specs.Table.{ArePosts};

use crate::node::Node;
use crate::served::Stop;
use mp_machine::{Local, StepRefusal};
use mp_messages::Bytes;
use mp_outside::{Gate, Kind3};
use mp_post::{Desk, Posts};
use mp_sets::Agent;
use mp_task::Heuristic;
use mp_team_verdicts::messages_go_to_others;
use std::sync::Wait;

/// How many messages an agent's post has counted by now: those that it put, and those of them that were taken.
fn count_at(posts: &Posts, agent: Agent) -> u64
    requires posts { ArePosts posts.now.shared.table_id posts.now.shared.key }
    requires agent { agent ≤ posts.now.shared.key }
{
    posts.shared.peek(2 * usize::from(agent.number()) - 1)
}

/// The place of an agent among all.
fn place(agent: Agent) -> usize
    ensures { result < 16 }
{
    usize::from(agent.number() - 1)
}

impl<H: Heuristic> Node<H> {
    /// Whether it passes over an agent's post, since that has counted no message since none waited there for this node. Halting
    /// somebody is not counted: so that a node which waits comes to see it, it passes over no more than 255 in turn.
    fn passes_over(&mut self, agent: Agent, count: u64) -> bool
        ensures { self.new ≡ self.old }
    {
        if self.counts[place(agent)] != count {
            return false;
        }
        self.passed_over = self.passed_over.wrapping_add(1);
        self.passed_over != 0
    }

    /// No message waited at an agent's post when it had counted so many.
    fn note_none(&mut self, agent: Agent, count: u64)
        ensures { self.new ≡ self.old }
    {
        self.counts[place(agent)] = count;
    }

    /// Its machine takes a message that was handed over: true, unless it does not go on.
    fn take_in(&mut self, from: Agent, bytes: &Bytes) -> Result<bool, Stop>
        requires free { self.old.machine.stopped ≡ None }
        requires may { may self.old.machine.done (locals.Take from) ≡ true }
        ensures same { IsSameAgent self.old self.new }
        ensures leaves { (table : TableId) (agents : ℕ) (d : SeenDesk)
            → IsHandedAt H.value agents (me_of self.old) from bytes.now d.view self.old
            → Leaves H.value table agents self.new d result }
    {
        messages_go_to_others();
        match self.receive(from, bytes) {
            Ok(()) => Ok(true),
            Err(StepRefusal::Bad(_)) => Err(Stop::Bad),
            Err(_) => Err(Stop::OutOfMemory),
        }
    }

    /// Takes the oldest message of another agent, if there is one: whether there was. Where nothing was put or taken at that
    /// agent's post since none waited, it takes no turn, but for one in 256 times.
    fn take_one<R: Wait, G: Gate>(
        &mut self,
        rt: &R,
        posts: &Posts,
        desk: &mut Desk,
        from: Agent,
        gate: &G,
    ) -> Result<bool, Stop>
        requires posts { ArePosts posts.now.shared.table_id posts.now.shared.key }
        requires ready { IsReady H.value posts.now.shared.table_id posts.now.shared.key self.old desk.old }
        requires from { (from ≢ me_of self.old) × (from ≤ posts.now.shared.key) }
        ensures { GoesOn H.value posts.now.shared.table_id posts.now.shared.key self.old desk.old result self.new desk.new }
    {
        let count = count_at(posts, from);
        if self.passes_over(from, count) || !self.machine.can(&Local::Take(from)) {
            return Ok(false);
        }
        gate.pass(self.me, Kind3::Take);
        match self.turn(rt, posts, desk, Some(from), gate) {
            Ok(None) => {
                self.note_none(from, count);
                Ok(false)
            }
            Ok(Some(bytes)) => self.take_in(from, &bytes),
            Err(stop) => Err(stop),
        }
    }

    /// After a message of an agent was taken, whose post had counted so many before: whether it was the last one there for this node, which it
    /// notes then, with the receipt counted. Where the post has counted more by now, it is looked at again.
    fn took_last(&mut self, desk: &Desk, from: Agent, count: u64) -> bool
        ensures { self.new ≡ self.old }
    {
        if desk.has_more() {
            return false;
        }
        self.note_none(from, count.wrapping_add(1));
        true
    }

    /// Takes the messages of another agent, as long as there are any: whether there was one.
    fn take_all<R: Wait, G: Gate>(
        &mut self,
        rt: &R,
        posts: &Posts,
        desk: &mut Desk,
        from: Agent,
        gate: &G,
    ) -> Result<bool, Stop>
        requires posts { ArePosts posts.now.shared.table_id posts.now.shared.key }
        requires ready { IsReady H.value posts.now.shared.table_id posts.now.shared.key self.old desk.old }
        requires from { (from ≢ me_of self.old) × (from ≤ posts.now.shared.key) }
        ensures { GoesOn H.value posts.now.shared.table_id posts.now.shared.key self.old desk.old result self.new desk.new }
    {
        let mut took = false;
        for _ in rt.forever() {
            let count = count_at(posts, from);
            match self.take_one(rt, posts, desk, from, gate) {
                Ok(true) => {
                    took = true;
                    if self.took_last(desk, from, count) {
                        return Ok(true);
                    }
                }
                Ok(false) => return Ok(took),
                Err(stop) => return Err(stop),
            }
        }
        unreachable!()
    }

    /// Takes the messages of the agent of a number, if that is another one: whether there was one.
    fn take_from<R: Wait, G: Gate>(
        &mut self,
        rt: &R,
        posts: &Posts,
        desk: &mut Desk,
        number: u16,
        gate: &G,
    ) -> Result<bool, Stop>
        requires posts { ArePosts posts.now.shared.table_id posts.now.shared.key }
        requires ready { IsReady H.value posts.now.shared.table_id posts.now.shared.key self.old desk.old }
        requires number { number ≤ posts.now.shared.key }
        ensures { GoesOn H.value posts.now.shared.table_id posts.now.shared.key self.old desk.old result self.new desk.new }
    {
        let Some(from) = Agent::new(number) else {
            return Ok(false);
        };
        if from == self.me() {
            return Ok(false);
        }
        self.take_all(rt, posts, desk, from, gate)
    }

    /// Takes the messages of each other agent, by rising number: whether there was one.
    pub(crate) fn take_from_others<R: Wait, G: Gate>(
        &mut self,
        rt: &R,
        posts: &Posts,
        desk: &mut Desk,
        agents: u16,
        gate: &G,
    ) -> Result<bool, Stop>
        requires posts { ArePosts posts.now.shared.table_id posts.now.shared.key }
        requires ready { IsReady H.value posts.now.shared.table_id posts.now.shared.key self.old desk.old }
        requires agents { agents ≡ posts.now.shared.key }
        ensures { GoesOn H.value posts.now.shared.table_id posts.now.shared.key self.old desk.old result self.new desk.new }
    {
        let mut took = false;
        for before in 0..agents {
            match self.take_from(rt, posts, desk, before + 1, gate) {
                Ok(one) => took = took || one,
                Err(stop) => return Err(stop),
            }
        }
        Ok(took)
    }
}
