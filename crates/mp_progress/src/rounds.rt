//! The agents of a team take turns, in the order in which `World::round_robin` lets them.

ghost use Rattle.std.specs.Prelude.{◌≡◌, ◌≤◌, ◌↔◌, length, true, IsTrue, OnOk};
ghost use Rattle.mp_schedule.specs.TeamRun.{IsSameTeam};
ghost use Rattle.mp_world.specs.RoundRobin.{is_over};

use crate::progress::Progress;
use mp_list::OutOfMemory;
use mp_messages::Event;
use mp_outside::Sink;
use mp_schedule::{EventRefusal, World};
use mp_sets::Agent;
use mp_task::Heuristic;
use std::alloc::Global;

/// Whether an agent is of a team.
fn is_of<H: Heuristic>(world: &World<H>, agent: Agent) -> bool
    ensures { IsTrue result ↔ (agent ≤ length world.now.tasks) }
{
    agent.number() <= world.agents()
}

/// Whether an event happened.
fn did_happen(answer: Result<(), EventRefusal>) -> Result<bool, OutOfMemory> {
    match answer {
        Ok(()) => Ok(true),
        Err(EventRefusal::NotNow(_)) => Ok(false),
        Err(EventRefusal::Empty { .. }) => Ok(false),
        Err(EventRefusal::OutOfMemory) => Err(OutOfMemory),
    }
}

/// An agent takes the oldest message of another one, if there is one: whether it did.
fn take<H: Heuristic>(world: &mut World<H>, by: Agent, from: Agent) -> Result<bool, OutOfMemory>
    ensures { IsSameTeam world.old world.new }
{
    if from == by || !is_of(world, by) || !is_of(world, from) {
        return Ok(false);
    }
    did_happen(world.event(Event::Take { by, from }))
}

/// An agent expands an entry, if it may: whether it did.
fn expand<H: Heuristic>(world: &mut World<H>, agent: Agent) -> Result<bool, OutOfMemory>
    ensures { IsSameTeam world.old world.new }
{
    if !is_of(world, agent) {
        return Ok(false);
    }
    did_happen(world.event(Event::Expand(agent)))
}

/// Agent 1 starts a snapshot, if it may.
fn start<H: Heuristic>(world: &mut World<H>) -> Result<(), OutOfMemory>
    ensures { IsSameTeam world.old world.new }
{
    if world.agents() == 0 {
        return Ok(());
    }
    did_happen(world.event(Event::Start))?;
    Ok(())
}

/// An agent takes the messages of another one, as long as there are any.
fn take_all<H: Heuristic>(world: &mut World<H>, by: Agent, from: Agent) -> Result<(), OutOfMemory>
    ensures { IsSameTeam world.old world.new }
{
    for _ in 0..u64::MAX {
        if !take(world, by, from)? {
            return Ok(());
        }
    }
    Err(OutOfMemory)
}

/// An agent takes the messages of the agent of a number, if that is another one.
fn take_from<H: Heuristic>(world: &mut World<H>, by: Agent, number: u16) -> Result<(), OutOfMemory>
    ensures { IsSameTeam world.old world.new }
{
    match Agent::new(number) {
        Some(from) => take_all(world, by, from),
        None => Ok(()),
    }
}

/// An agent takes the messages of each other one, by rising number.
fn take_from_others<H: Heuristic>(
    world: &mut World<H>,
    agents: u16,
    by: Agent,
) -> Result<(), OutOfMemory>
    ensures { IsSameTeam world.old world.new }
{
    for before in 0..agents {
        take_from(world, by, before.saturating_add(1))?;
    }
    Ok(())
}

/// An agent expands once if it may, which is noted.
fn expand_once<H: Heuristic, E: Sink>(
    alloc: Global,
    world: &mut World<H>,
    agent: Agent,
    progress: &mut Progress,
    err: &mut E,
) -> Result<(), OutOfMemory>
    ensures { IsSameTeam world.old world.new }
{
    if expand(world, agent)? {
        progress.note_expansion(alloc, world, err)?;
    }
    Ok(())
}

/// The turn of an agent: it takes what the others sent, then expands once if it may, and then agent 1 starts a snapshot if
/// it may.
fn turn<H: Heuristic, E: Sink>(
    alloc: Global,
    world: &mut World<H>,
    agents: u16,
    agent: Agent,
    progress: &mut Progress,
    err: &mut E,
) -> Result<(), OutOfMemory>
    ensures { IsSameTeam world.old world.new }
{
    take_from_others(world, agents, agent)?;
    expand_once(alloc, world, agent, progress, err)?;
    if agent == Agent::first() {
        start(world)?;
    }
    Ok(())
}

/// A round: each agent has its turn, by rising number.
fn round<H: Heuristic, E: Sink>(
    alloc: Global,
    world: &mut World<H>,
    agents: u16,
    progress: &mut Progress,
    err: &mut E,
) -> Result<(), OutOfMemory>
    ensures { IsSameTeam world.old world.new }
{
    for before in 0..agents {
        if let Some(agent) = Agent::new(before.saturating_add(1)) {
            turn(alloc, world, agents, agent, progress, err)?;
        }
    }
    Ok(())
}

/// The agents of a team take turns until all have ended, as `World::round_robin` lets them, and lines on `err` tell how far
/// they are: after 1,024 expansions, after each doubling up to 65,536, and after each 65,536 more.
///
/// It refuses only for want of memory, which it also answers after 2^64 - 1 rounds.
pub fn take_turns<H: Heuristic, E: Sink>(
    alloc: Global,
    world: &mut World<H>,
    err: &mut E,
) -> Result<(), OutOfMemory>
    ensures same { IsSameTeam world.old world.new }
    ensures over { OnOk result (is_over world.new.world ≡ true) }
{
    let agents = world.agents();
    let mut progress = Progress::new();
    for _ in 0..u64::MAX {
        if world.over() {
            return Ok(());
        }
        round(alloc, world, agents, &mut progress, err)?;
    }
    Err(OutOfMemory)
}
