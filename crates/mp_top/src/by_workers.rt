//! What the agents of a team find that workers serve, each some of them.

ghost use Rattle.std.specs.Prelude.{◌≡◌, ◌≤◌, false, All, length, map, IfOk, IfErr, OnOk};
ghost use Rattle.mp_outcome.specs.Names.{names_of};
ghost use Rattle.mp_schedule.specs.Finished.{AreOfRun};
ghost use Rattle.mp_schedule.specs.Machines.{AreNew, limit_of, tasks_of};
ghost use Rattle.mp_solutions.specs.Solution.{IsFoundToEnd};
ghost use Rattle.mp_solve.specs.Machines.{MayBegin};
ghost use Rattle.mp_solve.specs.Refused.{AreWithin};
ghost use Rattle.mp_split.specs.Team.{AreTasksOf, IsFirstRefusal};
ghost use Rattle.mp_task.specs.Limits.{IsWithinLimits};
ghost use Rattle.mp_text.specs.Outcome.{outcome_text};
ghost use Rattle.mp_top.specs.Asked.{values_of};
ghost use Rattle.mp_top.specs.Finding.{ComesOfSearch};
ghost use Rattle.mp_world.specs.Answers.{answer_of, outcome_of};
ghost use Rattle.mp_world.specs.Team.{most_expansions};
ghost use Rattle.mp_world.specs.World.{World};

use crate::decision::Search;
use crate::finding::{Workers, in_turn};
use mp_ground_laws::laws::checked_factors_are_checked;
use mp_grounder::GroundRefusal;
use mp_hmax::Hmax;
use mp_lifted::ActionBindingList;
use mp_list::OutOfMemory;
use mp_lmcut::Cut;
use mp_machine::Machine;
use mp_messages::Views;
use mp_outside::Gate;
use mp_pdb::Pdb;
use mp_solutions::answers_are_right_for_files;
use mp_solve::{Solution, are_within_limits, machines_of, told};
use mp_split::{Tasks, tasks};
use mp_stands::tasks::tasks_stand_for_files;
use mp_task::{Blind, Heuristic, TaskList};
use mp_team::{Finished, solve};
use mp_typing::CheckedFactor;
use mp_words::Choice;
use std::alloc::Global;
use std::sync::Wait;
use std::thread::Threads;

/// How many workers a team has: as many as agents where no number is asked for, or a greater one.
fn worker_count(asked: Option<u64>, agents: usize) -> u16
    requires some { 1 ≤ agents }
    requires at_most { agents ≤ 16 }
    ensures from_1 { 1 ≤ result }
    ensures at_most { result ≤ 16 }
{
    match asked {
        Some(count) if count >= 1 && count < agents as u64 => count as u16,
        _ => agents as u16,
    }
}

/// New machines for agents with these tasks, which workers may serve. Refuses only for want of memory.
fn new_team<H: Heuristic>(
    alloc: Global,
    tasks: TaskList,
    limit: u64,
) -> Result<Vec<Machine<H>>, OutOfMemory>
    requires { MayBegin limit tasks }
    ensures new { IfOk result (λ machines. AreNew H.value machines.items) }
    ensures limit { IfOk result (λ machines. limit_of machines.items ≡ limit) }
    ensures tasks { IfOk result (λ machines. tasks_of machines.items ≡ tasks) }
    ensures within { OnOk result (All IsWithinLimits tasks) }
{
    are_within_limits(tasks.as_slice());
    let machines = machines_of::<H>(alloc, tasks, limit)?;
    Ok(machines)
}

/// What a team has found whose machines have come to the end of a run, with its log.
fn solution_of<H: Heuristic>(
    alloc: Global,
    team: &[CheckedFactor],
    steps: &[ActionBindingList],
    views: Views,
    finished: Finished<H>,
) -> Result<Solution, OutOfMemory>
    requires team { length team.now ≤ 16 }
    requires run { AreOfRun H.value finished.machines.items }
    ensures views { IfOk result (λ s. s.views ≡ views) }
    ensures log { IfOk result (λ s. s.log ≡ finished.log) }
    ensures answer { IfOk result (λ s. (last : World) → last.agents ≡ map (λ m. m.done) finished.machines.items
        → s.answer ≡ answer_of last) }
    ensures text { IfOk result (λ s. (last : World) → last.agents ≡ map (λ m. m.done) finished.machines.items
        → s.text ≡ outcome_text (outcome_of last) (names_of team.now steps.now) finished.log) }
{
    let Finished { machines, log } = finished;
    let found = told(alloc, team, steps, machines.as_slice(), &log)?;
    Ok(Solution {
        views,
        log,
        answer: found.answer,
        text: found.text,
    })
}

/// What the agents with these tasks find.
fn found<R: Threads + Wait + Sync, H: Heuristic + Send, G: Gate + Sync>(
    rt: &R,
    gate: &G,
    alloc: Global,
    team: &[CheckedFactor],
    given: Tasks,
    limit: u64,
    workers: u16,
) -> Result<Solution, OutOfMemory>
    requires from_1 { 1 ≤ limit }
    requires limit { limit ≤ most_expansions }
    requires some { 1 ≤ length team.now }
    requires at_most { length team.now ≤ 16 }
    requires tasks { AreTasksOf team.now given }
    requires workers { (1 ≤ workers) × (workers ≤ 16) }
    ensures { IfOk result (IsFoundToEnd H.value limit team.now) }
{
    let Tasks {
        tasks,
        steps,
        views,
    } = given;
    checked_factors_are_checked(team);
    tasks_stand_for_files();
    answers_are_right_for_files::<H>();
    let machines = new_team::<H>(alloc, tasks, limit)?;
    let finished = solve(rt, alloc, machines, workers, gate)?;
    solution_of(alloc, team, steps.as_slice(), views, finished)
}

/// What the agents of a team find by a heuristic.
#[tactic(auto, using(mp_split::proofs::FirstAgents::no_memory))]
fn found_by<R: Threads + Wait + Sync, H: Heuristic + Send, G: Gate + Sync>(
    rt: &R,
    gate: &G,
    alloc: Global,
    team: &[CheckedFactor],
    limit: u64,
    workers: u16,
) -> Result<Solution, GroundRefusal>
    requires from_1 { 1 ≤ limit }
    requires limit { limit ≤ most_expansions }
    requires some { 1 ≤ length team.now }
    requires at_most { length team.now ≤ 16 }
    requires workers { (1 ≤ workers) × (workers ≤ 16) }
    ensures found { IfOk result (IsFoundToEnd H.value limit team.now) }
    ensures within { OnOk result (AreWithin team.now) }
    ensures refused { IfErr result (IsFirstRefusal team.now) }
{
    let given = tasks(alloc, team)?;
    Ok(found::<R, H, G>(rt, gate, alloc, team, given, limit, workers)?)
}

/// What they find by the heuristic that is asked for.
fn served<R: Threads + Wait + Sync, G: Gate + Sync>(
    rt: &R,
    gate: &G,
    alloc: Global,
    team: &[CheckedFactor],
    search: Search,
    workers: u16,
) -> Result<Solution, GroundRefusal>
    requires from_1 { 1 ≤ search.limit }
    requires limit { search.limit ≤ most_expansions }
    requires some { 1 ≤ length team.now }
    requires at_most { length team.now ≤ 16 }
    requires workers { (1 ≤ workers) × (workers ≤ 16) }
    ensures found { IfOk result (IsFoundToEnd (values_of search.heuristic) search.limit team.now) }
    ensures within { OnOk result (AreWithin team.now) }
    ensures refused { IfErr result (IsFirstRefusal team.now) }
{
    match search.heuristic {
        Choice::Blind => found_by::<R, Blind, G>(rt, gate, alloc, team, search.limit, workers),
        Choice::Max => found_by::<R, Hmax, G>(rt, gate, alloc, team, search.limit, workers),
        Choice::Cut => found_by::<R, Cut, G>(rt, gate, alloc, team, search.limit, workers),
        Choice::Pdb => found_by::<R, Pdb, G>(rt, gate, alloc, team, search.limit, workers),
    }
}

/// What they find where one thread alone is not asked for.
fn by_several<R: Threads + Wait + Sync, G: Gate + Sync>(
    rt: &R,
    gate: &G,
    alloc: Global,
    team: &[CheckedFactor],
    search: Search,
    workers: Workers,
) -> Result<Solution, GroundRefusal>
    requires from_1 { 1 ≤ search.limit }
    requires limit { search.limit ≤ most_expansions }
    requires some { 1 ≤ length team.now }
    requires at_most { length team.now ≤ 16 }
    requires several { workers.one ≡ false }
    ensures { ComesOfSearch team.now search workers result }
{
    let count = worker_count(workers.count, team.len());
    served(rt, gate, alloc, team, search, count)
}

/// What the agents of a team find that workers serve, the calling thread among them, unless one thread alone is asked for:
/// then they take turns on it.
pub(crate) fn by_workers<R: Threads + Wait + Sync, G: Gate + Sync>(
    rt: &R,
    gate: &G,
    alloc: Global,
    team: &[CheckedFactor],
    search: Search,
    workers: Workers,
) -> Result<Solution, GroundRefusal>
    requires from_1 { 1 ≤ search.limit }
    requires limit { search.limit ≤ most_expansions }
    requires some { 1 ≤ length team.now }
    requires at_most { length team.now ≤ 16 }
    ensures { ComesOfSearch team.now search workers result }
{
    if workers.one {
        return in_turn(alloc, team, search, workers);
    }
    by_several(rt, gate, alloc, team, search, workers)
}
