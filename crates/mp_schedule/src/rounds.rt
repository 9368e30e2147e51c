//! Round robin: the agents of a team take turns.

ghost use Rattle.std.specs.Prelude.{◌≡◌, ◌≢◌, ◌≤◌, ◌==◌, not, true, false, length, IfOk, IsErr, OnErr, OnOk};
ghost use Rattle.mp_messages.specs.declared.history.Event.TheVariants as events;
ghost use Rattle.mp_machine.specs.Outgoing.{others};
ghost use Rattle.mp_schedule.specs.GoingOn.{HappensIf, TakesAll};
ghost use Rattle.mp_schedule.specs.Happening.{IsOfTeam};
ghost use Rattle.mp_schedule.specs.Laws.{KeepsLaws};
ghost use Rattle.mp_schedule.specs.TeamRun.{HasDone, IsLogged};
ghost use Rattle.mp_search.specs.Concern.{one_if};
ghost use Rattle.mp_team_verdicts.specs.Going.{TakesFewRounds};
ghost use Rattle.mp_world.specs.RoundRobin.{ForEach, IfItMay, IsRoundRobin, Round, Rounds, StartsIfFirst, Then, Turn};

use crate::laws::runs_keep_laws;
use crate::refusal::EventRefusal;
use crate::team::World;
use mp_list::OutOfMemory;
use mp_messages::Event;
use mp_sets::Agent;
use mp_task::Heuristic;
use mp_team_verdicts::{round_robin_takes_few_rounds, rounds_do_something, snapshots_are_events};

/// Whether it is agent 1.
fn is_first(agent: Agent) -> bool
    ensures { result ≡ (agent == 1) }
{
    agent == Agent::first()
}

impl<H: Heuristic> World<H> {
    /// An event happens if it may: whether it did.
    fn happens(&mut self, event: Event) -> Result<bool, OutOfMemory>
        requires { IsOfTeam (length self.old.tasks) event }
        ensures did { IfOk result (λ did. HappensIf H.value self.old event did self.new) }
        ensures failed { OnErr result (self.new.failed ≡ true) }
    {
        self.comes_from_a_run();
        match self.event(event) {
            Ok(()) => Ok(true),
            Err(EventRefusal::NotNow(_)) => Ok(false),
            Err(EventRefusal::Empty { .. }) => Ok(false),
            Err(EventRefusal::OutOfMemory) => Err(OutOfMemory),
        }
    }

    /// An agent takes a message of another one if it may: whether it did. Most agents that are asked have sent none, so it is
    /// asked for a message before the agent is asked whether it may take one.
    fn takes(&mut self, by: Agent, from: Agent) -> Result<bool, OutOfMemory>
        requires { IsOfTeam (length self.old.tasks) (events.Take by from) }
        ensures did { IfOk result (λ did. HappensIf H.value self.old (events.Take by from) did self.new) }
        ensures failed { OnErr result (self.new.failed ≡ true) }
    {
        if self.has_none(by, from) {
            return Ok(false);
        }
        self.happens(Event::Take { by, from })
    }

    /// An agent takes the messages of another one, as long as there are any.
    fn take_all(&mut self, by: Agent, from: Agent) -> Result<(), OutOfMemory>
        requires by { by ≤ length self.old.tasks }
        requires from { from ≤ length self.old.tasks }
        requires another { from ≢ by }
        ensures done { OnOk result (HasDone (TakesAll H.value by from) self.old self.new) }
        ensures failed { OnErr result (self.new.failed ≡ true) }
    {
        self.comes_from_a_run();
        'messages: loop {
            if !self.takes(by, from)? {
                return Ok(());
            }
        }
    }

    /// An agent takes the messages of the agent of a number, if that is another one.
    fn take_from(&mut self, by: Agent, number: u16) -> Result<(), OutOfMemory>
        requires by { by ≤ length self.old.tasks }
        requires from_1 { 1 ≤ number }
        requires at_most { number ≤ length self.old.tasks }
        requires agents { length self.old.tasks ≤ 16 }
        ensures done { OnOk result
            (HasDone (ForEach (TakesAll H.value by) (one_if (not (number == by)) number)) self.old self.new) }
        ensures failed { OnErr result (self.new.failed ≡ true) }
    {
        let Some(from) = Agent::new(number) else {
            return Ok(());
        };
        if from == by {
            return Ok(());
        }
        self.take_all(by, from)
    }

    /// An agent takes the messages of each other one, by rising number.
    fn take_from_others(&mut self, agents: u16, by: Agent) -> Result<(), OutOfMemory>
        requires agents { agents ≡ length self.old.tasks }
        requires by { by ≤ agents }
        requires at_most { agents ≤ 16 }
        ensures done { OnOk result
            (HasDone (ForEach (TakesAll H.value by) (others by agents)) self.old self.new) }
        ensures failed { OnErr result (self.new.failed ≡ true) }
    {
        for before in 0..agents {
            self.take_from(by, before + 1)?;
        }
        Ok(())
    }

    /// An agent expands once if it may.
    fn expand_once(&mut self, agent: Agent) -> Result<(), OutOfMemory>
        requires { agent ≤ length self.old.tasks }
        ensures done { OnOk result (HasDone (IfItMay H.value (events.Expand agent)) self.old self.new) }
        ensures failed { OnErr result (self.new.failed ≡ true) }
    {
        self.happens(Event::Expand(agent))?;
        Ok(())
    }

    /// Agent 1 starts a snapshot if it may; another agent does nothing.
    fn start_if_first(&mut self, agent: Agent) -> Result<(), OutOfMemory>
        requires { agent ≤ length self.old.tasks }
        ensures done { OnOk result (HasDone (StartsIfFirst H.value agent) self.old self.new) }
        ensures failed { OnErr result (self.new.failed ≡ true) }
    {
        if is_first(agent) {
            self.happens(Event::Start)?;
        }
        Ok(())
    }

    /// An agent expands once if it may; then agent 1 starts a snapshot if it may.
    fn act_alone(&mut self, agent: Agent) -> Result<(), OutOfMemory>
        requires { agent ≤ length self.old.tasks }
        ensures done { OnOk result
            (HasDone (Then (IfItMay H.value (events.Expand agent)) (StartsIfFirst H.value agent)) self.old self.new) }
        ensures failed { OnErr result (self.new.failed ≡ true) }
    {
        self.expand_once(agent)?;
        self.start_if_first(agent)
    }

    /// The turn of an agent in a team of so many.
    fn turn(&mut self, agents: u16, agent: Agent) -> Result<(), OutOfMemory>
        requires agents { agents ≡ length self.old.tasks }
        requires agent { agent ≤ agents }
        requires at_most { agents ≤ 16 }
        ensures done { OnOk result (HasDone (Turn H.value agents agent) self.old self.new) }
        ensures failed { OnErr result (self.new.failed ≡ true) }
    {
        self.take_from_others(agents, agent)?;
        self.act_alone(agent)
    }

    /// The turn of the agent of a number.
    fn turn_of(&mut self, agents: u16, number: u16) -> Result<(), OutOfMemory>
        requires agents { agents ≡ length self.old.tasks }
        requires from_1 { 1 ≤ number }
        requires within { number ≤ agents }
        requires at_most { agents ≤ 16 }
        ensures done { OnOk result (HasDone (Turn H.value agents number) self.old self.new) }
        ensures failed { OnErr result (self.new.failed ≡ true) }
    {
        let Some(agent) = Agent::new(number) else {
            return Ok(());
        };
        self.turn(agents, agent)
    }

    /// A round: each agent has its turn, by rising number.
    fn round(&mut self, agents: u16) -> Result<(), OutOfMemory>
        requires agents { agents ≡ length self.old.tasks }
        requires at_most { agents ≤ 16 }
        ensures done { OnOk result (HasDone (Round H.value agents) self.old self.new) }
        ensures failed { OnErr result (self.new.failed ≡ true) }
    {
        for before in 0..agents {
            self.turn_of(agents, before + 1)?;
        }
        Ok(())
    }

    /// What has happened has led to where it is.
    fn has_run(&self)
        requires works { self.now.failed ≡ false }
        ensures { IsLogged H.value self.now }
    {
        self.comes_from_a_run();
    }

    /// Rounds are repeated until all agents have ended. Each of them does something, so that there are more events in the
    /// log, and the log is in memory.
    fn rounds(&mut self, agents: u16) -> Result<(), OutOfMemory>
        requires agents { agents ≡ length self.old.tasks }
        requires at_most { agents ≤ 16 }
        requires works { self.old.failed ≡ false }
        ensures done { OnOk result (HasDone (Rounds H.value agents) self.old self.new) }
        ensures failed { OnErr result (self.new.failed ≡ true) }
    {
        rounds_do_something();
        snapshots_are_events();
        'rounds: loop {
            self.comes_from_a_run();
            self.has_few_events();
            if self.over() {
                return Ok(());
            }
            self.round(agents)?;
        }
    }

    /// The agents take turns until all have ended: each takes what there is from each other one, by rising number, then
    /// expands once if it may, and then agent 1 starts a snapshot if it may.
    ///
    /// It refuses only for want of memory, and after that each call does. It always ends, after fewer than 2^51 rounds: each
    /// agent expands only so many entries, each round takes all messages that there are, and while the team is not over
    /// something happens. The run keeps the laws of runs.
    pub fn round_robin(&mut self) -> Result<(), OutOfMemory>
        ensures again { self.old.failed ≡ true → IsErr result }
        ensures done { OnOk result (HasDone (IsRoundRobin H.value) self.old self.new) }
        ensures failed { OnErr result (self.new.failed ≡ true) }
        ensures laws { OnOk result (KeepsLaws H.value self.new) }
        ensures few { OnOk result
            (TakesFewRounds H.value (length self.old.tasks) self.old.world self.new.world) }
    {
        runs_keep_laws::<H>();
        round_robin_takes_few_rounds();
        snapshots_are_events();
        if self.has_failed() {
            return Err(OutOfMemory);
        }
        self.has_run();
        let count = self.agents();
        self.rounds(count)?;
        self.has_few_events();
        self.comes_from_a_run();
        Ok(())
    }
}
