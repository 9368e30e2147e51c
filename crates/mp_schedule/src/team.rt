//! A team that runs on one thread.

ghost use Rattle.std.specs.Prelude.{◌≡◌, ◌≤◌, ◌<◌, ◌^◌, ℕ, length, map, not, true, false, All, IfOk, OnOk};
ghost use Rattle.std.specs.List.{list_all};
ghost use Rattle.mp_machine.specs.AgentRecord.{is_going};
ghost use Rattle.mp_messages.specs.declared.history.Event.TheVariants as events;
ghost use Rattle.mp_schedule.specs.Happening.{IsAnswer, IsOfTeam};
ghost use Rattle.mp_schedule.specs.Laws.{KeepsLaws};
ghost use Rattle.mp_schedule.specs.Machines.{AreNew, IsFree, limit_of, tasks_of};
ghost use Rattle.mp_schedule.specs.TeamRun.{IsLogged, MayRun, start_run};
ghost use Rattle.mp_team_states.specs.Expansions.{ExpandsOne};
ghost use Rattle.mp_world.specs.Events.{is_legal};
ghost use Rattle.mp_world.specs.RoundRobin.{is_over};

use crate::laws::runs_keep_laws;
use crate::mail::Mail;
use crate::memory::is_in_memory;
use crate::refusal::EventRefusal;
use crate::steps::{happen, refusal_of};
use mp_list::OutOfMemory;
use mp_machine::{Ending, Machine, StepRefusal};
use mp_messages::{Event, Log};
use mp_sets::Agent;
use mp_task::Heuristic;
use mp_team_verdicts::no_message_is_bad;
use std::alloc::Global;
use std::marker::Model;

/// The agents of a team, the messages under way between them, and the log of what has happened. Contracts see it as the
/// run that its log tells.
#[derive(Drop)]
pub struct World<H: Heuristic> {
    machines: Vec<Machine<H>>,
    mail: Mail,
    log: Log,
    /// Memory ran out before, and it refuses each event.
    failed: bool,
}

impl<H: Heuristic> Model for World<H> {
    ghost use Rattle.mp_schedule.specs.TeamRun.{TeamRun};
    ghost use Rattle.mp_schedule.specs.Machines.{team_run, AreOneRun};

    ghost Value = { TeamRun };

    ghost use Rattle.std.specs.Coded.{codes};
    ghost use Rattle.mp_search.specs.StateKeys.{coded_numbers};

    ghost coded = { Prim.hlevel (codes, coded_numbers) };

    ghost view = { λ w. team_run w.machines.items w.mail w.log w.failed };

    ghost invariant = { λ w. AreOneRun H.value w.machines.items w.mail w.log w.failed };
}

/// Whether an agent has not ended.
fn is_going<H: Heuristic>(machine: &Machine<H>) -> bool
    ensures { result ≡ is_going machine.now.done.ending }
{
    match machine.ending() {
        Ending::Going => true,
        _ => false,
    }
}

/// Whether all agents have ended.
pub(crate) fn have_ended<H: Heuristic>(machines: &[Machine<H>]) -> bool
    ensures { result ≡ list_all (λ r. not (is_going r.ending)) (map (λ m. m.done) machines.now) }
{
    for machine in machines {
        if is_going(machine) {
            return false;
        }
    }
    true
}

impl<H: Heuristic> World<H> {
    /// A team at the start. Its machines are new, 1 to 16 of them, their tasks agree and are within the limits, and
    /// each may expand as many entries, at most 10,000,000. It keeps the laws of runs. Refuses only for want of memory.
    pub fn new(alloc: Global, machines: Vec<Machine<H>>) -> Result<World<H>, OutOfMemory>
        requires { AreNew H.value machines.items }
        ensures made { IfOk result (λ made. made
            ≡ start_run H.value (limit_of machines.items) (tasks_of machines.items)) }
        ensures laws { IfOk result (KeepsLaws H.value) }
    {
        runs_keep_laws::<H>();
        let mail = Mail::new(alloc, machines.len())?;
        Ok(World {
            machines,
            mail,
            log: Log::new(alloc),
            failed: false,
        })
    }

    /// An event happens.
    ///
    /// It refuses with `NotNow` exactly where its agent may not do it, and otherwise with `Empty` exactly where there
    /// is no message that it could take; then nothing has changed. No agent finds its message to be a bad one. After
    /// want of memory it refuses each event so.
    ///
    /// As long as memory has not run out, the run keeps its laws. An expansion that happens is not wasted.
    pub fn event(&mut self, event: Event) -> Result<(), EventRefusal>
        requires { IsOfTeam (length self.old.tasks) event }
        ensures answer { IsAnswer H.value self.old event result self.new }
        ensures laws { self.new.failed ≡ false → KeepsLaws H.value self.new }
        ensures one { OnOk result ((agent : ℕ) → event ≡ events.Expand agent
            → ExpandsOne self.old.world agent self.new.world) }
    {
        runs_keep_laws::<H>();
        if self.failed {
            return Err(EventRefusal::OutOfMemory);
        }
        if let Some(refusal) = refusal_of(&self.machines, &self.mail, &event) {
            return Err(refusal);
        }
        match happen(&mut self.machines, &mut self.mail, &mut self.log, &event) {
            Ok(()) => Ok(()),
            Err(StepRefusal::Bad(_)) => {
                no_message_is_bad();
                unreachable!()
            }
            Err(_) => {
                self.failed = true;
                Err(EventRefusal::OutOfMemory)
            }
        }
    }

    /// Whether all agents have ended.
    pub fn over(&self) -> bool
        ensures { result ≡ is_over self.now.world }
    {
        have_ended(self.machines.as_slice())
    }

    /// The machines of the agents, agent 1 first. None has been stopped, unless memory ran out.
    pub fn machines(&self) -> &[Machine<H>]
        ensures agents { map (λ m. m.done) result.now ≡ self.now.world.agents }
        ensures free { self.now.failed ≡ false → All IsFree result.now }
    {
        self.machines.as_slice()
    }

    /// Each event, and behind it the messages that went out.
    pub fn log(&self) -> &Log
        ensures { result.now ≡ self.now.log }
    {
        &self.log
    }

    /// The log, and nothing else of the team.
    pub fn into_log(self) -> Log
        ensures { result ≡ self.log }
    {
        let World { log, .. } = self;
        log
    }

    /// How many agents there are.
    pub fn agents(&self) -> u16
        ensures tasks { result ≡ length self.now.tasks }
        ensures world { result ≡ length self.now.world.agents }
        ensures at_most { result ≤ 16 }
    {
        self.machines.len() as u16
    }

    /// Whether memory ran out before.
    pub fn has_failed(&self) -> bool
        ensures { result ≡ self.now.failed }
    {
        self.failed
    }

    /// Whether no message is under way from one agent to another, so that none can be taken.
    pub(crate) fn has_none(&self, by: Agent, from: Agent) -> bool
        ensures { result ≡ true → is_legal self.now.world (events.Take by from) ≡ false }
    {
        self.mail.is_empty(from, by)
    }

    /// There are fewer events than a log in memory has room for.
    pub(crate) fn has_few_events(&self)
        ensures { length self.now.schedule < 2 ^ 59 }
    {
        is_in_memory(&self.log);
    }

    /// The tasks agree and are within the limits. Unless memory ran out, the world is the one that the schedule leads
    /// to, and the log is that of its run.
    pub fn comes_from_a_run(&self)
        ensures team { MayRun self.now }
        ensures run { self.now.failed ≡ false → IsLogged H.value self.now }
    {
        let _ = &self.log;
    }
}
