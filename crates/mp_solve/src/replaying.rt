//! What the agents of a team find by a schedule.

ghost use Rattle.std.specs.Prelude.{◌≡◌, ◌≤◌, ◌++◌, ◌∷◌, [], length, map, All, Ok, IfOk, IfErr, OnOk};
ghost use Rattle.mp_schedule.specs.Happening.{IsOfTeam};
ghost use Rattle.mp_solutions.specs.Solution.{IsFoundInTurn, IsReplayed};
ghost use Rattle.mp_solve.specs.Ended.{HasDoneAll};
ghost use Rattle.mp_solve.specs.Refused.{AreWithin, IsUnread, MayNot, Refuses, Stops};
ghost use Rattle.mp_schedule.specs.TeamRun.{team_in};
ghost use Rattle.mp_split.specs.Team.{AreTasksOf};
ghost use Rattle.mp_text.specs.Schedule.{schedule_in};
ghost use Rattle.mp_world.specs.Team.{most_expansions, team_with};

use crate::machines::begun;
use crate::refusal::ReplayRefusal;
use crate::telling::solution_of;
use mp_ground_laws::laws::checked_factors_are_checked;
use mp_grounder::GroundRefusal;
use mp_schedule::{EventRefusal, World};
use mp_solutions::{Solution, answers_are_right_for_files};
use mp_split::{Tasks, tasks};
use mp_stands::tasks::tasks_stand_for_files;
use mp_task::Heuristic;
use mp_text::{EventLine, EventLines, LineRefusal, read_schedule};
use mp_typing::CheckedFactor;
use std::alloc::Global;

/// The event of a line happens, if it may.
fn happen<H: Heuristic>(world: &mut World<H>, line: EventLine) -> Result<(), ReplayRefusal>
    requires done { HasDoneAll (team_in H.value world.old) world.old.schedule world.old }
    requires of_team { IsOfTeam (length world.old.tasks) line.event }
    ensures done { OnOk result (HasDoneAll (team_in H.value world.old)
        (world.old.schedule ++ line.event ∷ []) world.new) }
    ensures refused { IfErr result (MayNot world.old.world line) }
{
    match world.event(line.event) {
        Ok(()) => {
            world.comes_from_a_run();
            Ok(())
        }
        Err(EventRefusal::OutOfMemory) => Err(ReplayRefusal::Sizes(GroundRefusal::OutOfMemory)),
        Err(_) => Err(ReplayRefusal::Line(line.line)),
    }
}

/// The events of these lines happen, one after another, as long as they may.
fn happen_all<H: Heuristic>(world: &mut World<H>, lines: &[EventLine]) -> Result<(), ReplayRefusal>
    requires done { HasDoneAll (team_in H.value world.old) [] world.old }
    requires of_team { All (λ line. IsOfTeam (length world.old.tasks) line.event) lines.now }
    ensures done { OnOk result (HasDoneAll (team_in H.value world.old)
        (map (λ line. line.event) lines.now) world.new) }
    ensures refused { IfErr result (Stops (team_in H.value world.old) lines.now) }
{
    for line in lines {
        match happen(world, *line) {
            Ok(()) => {}
            Err(refusal) => return Err(refusal),
        }
    }
    Ok(())
}

/// What the agents with these tasks find by the events of these lines.
fn replayed<H: Heuristic>(
    alloc: Global,
    factors: &[CheckedFactor],
    given: Tasks,
    limit: u64,
    lines: &[EventLine],
) -> Result<Solution, ReplayRefusal>
    requires from_1 { 1 ≤ limit }
    requires limit { limit ≤ most_expansions }
    requires some { 1 ≤ length factors.now }
    requires at_most { length factors.now ≤ 16 }
    requires tasks { AreTasksOf factors.now given }
    requires of_team { All (λ line. IsOfTeam (length factors.now) line.event) lines.now }
    ensures found { IfOk result (IsFoundInTurn H.value limit factors.now (map (λ line. line.event) lines.now)) }
    ensures refused { IfErr result (Stops (team_with H.value limit given.tasks) lines.now) }
{
    let Tasks {
        tasks,
        steps,
        views,
    } = given;
    checked_factors_are_checked(factors);
    tasks_stand_for_files();
    answers_are_right_for_files::<H>();
    let mut world = begun::<H>(alloc, tasks, limit)?;
    match happen_all(&mut world, lines) {
        Ok(()) => Ok(solution_of(alloc, factors, steps.as_slice(), views, world)?),
        Err(refusal) => Err(refusal),
    }
}

/// The schedule that a text has for a team of so many agents, 1 to 16. The text is let go: it may have more bytes than all that
/// the team finds.
fn schedule_of(alloc: Global, text: Vec<u8>, agents: u16) -> Result<EventLines, ReplayRefusal>
    requires some { 1 ≤ agents }
    requires at_most { agents ≤ 16 }
    ensures read { IfOk result (λ lines. schedule_in agents text.items ≡ Ok lines) }
    ensures of_team { IfOk result (All (λ line. IsOfTeam agents line.event)) }
    ensures refused { IfErr result (IsUnread agents text.items) }
{
    match read_schedule(alloc, text.as_slice(), agents) {
        Ok(lines) => Ok(lines),
        Err(LineRefusal::Line(number)) => Err(ReplayRefusal::Line(number)),
        Err(LineRefusal::OutOfMemory) => Err(ReplayRefusal::Sizes(GroundRefusal::OutOfMemory)),
    }
}

/// What the agents of a team find by the schedule that a text has, where each may expand `limit` entries, from 1 to
/// 10,000,000: their factors are grounded, each gets its task, and the events happen, one after another. There are 1 to 16
/// agents. Where not all have ended behind the last event, there is no answer, and no text. The memory of the schedule's text
/// is given back before the first event happens.
///
/// It refuses where a factor is not grounded, as the first of the agents with such a factor does; otherwise with a line of
/// the text, the first that is neither of an event nor of a message, or, where there is none, that of the first event
/// that may not happen; and for want of memory.
pub fn replay<H: Heuristic>(
    alloc: Global,
    factors: &[CheckedFactor],
    limit: u64,
    text: Vec<u8>,
) -> Result<Solution, ReplayRefusal>
    requires from_1 { 1 ≤ limit }
    requires limit { limit ≤ most_expansions }
    requires some { 1 ≤ length factors.now }
    requires at_most { length factors.now ≤ 16 }
    ensures replayed { IfOk result (IsReplayed H.value limit factors.now text.items) }
    ensures within { OnOk result (AreWithin factors.now) }
    ensures refused { IfErr result (Refuses H.value limit factors.now text.items) }
{
    let given = match tasks(alloc, factors) {
        Ok(given) => given,
        Err(refusal) => return Err(ReplayRefusal::Sizes(refusal)),
    };
    match schedule_of(alloc, text, factors.len() as u16) {
        Ok(lines) => replayed::<H>(alloc, factors, given, limit, lines.as_slice()),
        Err(refusal) => Err(refusal),
    }
}
