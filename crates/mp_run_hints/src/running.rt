//! A team that runs on one thread, and what is told of it.

ghost use Rattle.std.specs.Prelude.{◌≡◌, ◌≤◌, length, true, All, IfOk, OnOk};
ghost use Rattle.mp_run_hints.specs.Answered.{IsAnswerOf, IsAnswered, values_of};
ghost use Rattle.mp_schedule.specs.TeamRun.{start_run};
ghost use Rattle.mp_split.specs.Team.{AreTasksOf};
ghost use Rattle.mp_task.specs.Limits.{IsWithinLimits};
ghost use Rattle.mp_world.specs.RoundRobin.{is_over};
ghost use Rattle.mp_solve.specs.Machines.{MayBegin};
ghost use Rattle.mp_world.specs.Team.{most_expansions};

use crate::report::push_report;
use crate::trace::traced;
use mp_counted::{Count, Counted, counted_machines};
use mp_ground_laws::laws::checked_factors_are_checked;
use mp_grounder::GroundRefusal;
use mp_hmax::Hmax;
use mp_lifted::ActionBindingList;
use mp_list::OutOfMemory;
use mp_lmcut::Cut;
use mp_outside::Sink;
use mp_pdb::Pdb;
use mp_progress::take_turns;
use mp_schedule::World;
use mp_solutions::answers_are_right_for_files;
use mp_solve::{ToldAnswer, are_within_limits, told};
use mp_split::{Tasks, tasks};
use mp_stands::tasks::tasks_stand_for_files;
use mp_task::{Blind, Heuristic, Task, TaskList};
use mp_typing::CheckedFactor;
use mp_words::Choice;
use std::alloc::Global;

/// What is told of a run.
#[derive(Clone, Copy)]
struct Wanted {
    /// Whether the trace stands before the outcome.
    trace: bool,
    /// How many public facts there are.
    publics: u32,
}

/// How many public facts the tasks of a team have.
fn publics_of(tasks: &[Task]) -> u32 {
    match tasks.first() {
        Some(first) => first.publics,
        None => 0,
    }
}

/// A team of agents with these tasks, before they have done anything, with a count of how often each asks its heuristic.
fn begun<H: Heuristic>(
    alloc: Global,
    tasks: TaskList,
    limit: u64,
    counts: &mut Vec<Count>,
) -> Result<World<Counted<H>>, OutOfMemory>
    requires { MayBegin limit tasks }
    ensures start { IfOk result (λ world. world ≡ start_run H.value limit tasks) }
    ensures within { OnOk result (All IsWithinLimits tasks) }
{
    are_within_limits(tasks.as_slice());
    let machines = counted_machines::<H>(alloc, tasks, limit, counts)?;
    let world = World::new(alloc, machines)?;
    Ok(world)
}

/// The outcome of a run that is over, by the names of its files.
fn outcome_of<H: Heuristic>(
    alloc: Global,
    factors: &[CheckedFactor],
    steps: &[ActionBindingList],
    world: &World<H>,
) -> Result<ToldAnswer, OutOfMemory>
    requires team { length factors.now ≤ 16 }
    requires over { is_over world.now.world ≡ true }
    ensures { IfOk result (λ told. IsAnswerOf H.value world.now.limit world.now.tasks told.answer) }
{
    if world.has_failed() {
        return Err(OutOfMemory);
    }
    world.comes_from_a_run();
    let found = told(alloc, factors, steps, world.machines(), world.log())?;
    Ok(found)
}

/// The outcome with the trace before it, where that is wanted.
fn with_trace<H: Heuristic>(
    alloc: Global,
    world: &World<H>,
    outcome: ToldAnswer,
    trace: bool,
) -> Result<ToldAnswer, OutOfMemory>
    ensures { IfOk result (λ told. told.answer ≡ outcome.answer) }
{
    if !trace {
        return Ok(outcome);
    }
    Ok(ToldAnswer {
        answer: outcome.answer,
        text: traced(alloc, world.log(), outcome.text.as_slice())?,
    })
}

/// What is told of a run that is over.
fn told_of<H: Heuristic>(
    alloc: Global,
    factors: &[CheckedFactor],
    steps: &[ActionBindingList],
    world: &World<H>,
    counts: &[Count],
    wanted: Wanted,
) -> Result<ToldAnswer, OutOfMemory>
    requires team { length factors.now ≤ 16 }
    requires over { is_over world.now.world ≡ true }
    ensures { IfOk result (λ told. IsAnswerOf H.value world.now.limit world.now.tasks told.answer) }
{
    let outcome = outcome_of(alloc, factors, steps, world)?;
    let mut whole = with_trace(alloc, world, outcome, wanted.trace)?;
    let answer = whole.answer;
    push_report(
        alloc,
        &mut whole.text,
        answer,
        wanted.publics,
        world,
        counts,
    )?;
    Ok(whole)
}

/// The agents of a team take turns until all have ended, and what is told of that.
fn run_world<H: Heuristic, E: Sink>(
    alloc: Global,
    factors: &[CheckedFactor],
    steps: &[ActionBindingList],
    world: &mut World<H>,
    counts: &[Count],
    wanted: Wanted,
    err: &mut E,
) -> Result<ToldAnswer, OutOfMemory>
    requires { length factors.now ≤ 16 }
    ensures { IfOk result (λ told. IsAnswerOf H.value world.old.limit world.old.tasks told.answer) }
{
    take_turns(alloc, world, err)?;
    told_of(alloc, factors, steps, world, counts, wanted)
}

/// What is told of agents with these tasks.
fn run_tasks<H: Heuristic, E: Sink>(
    alloc: Global,
    factors: &[CheckedFactor],
    given: Tasks,
    limit: u64,
    trace: bool,
    err: &mut E,
) -> Result<ToldAnswer, OutOfMemory>
    requires from_1 { 1 ≤ limit }
    requires limit { limit ≤ most_expansions }
    requires some { 1 ≤ length factors.now }
    requires at_most { length factors.now ≤ 16 }
    requires tasks { AreTasksOf factors.now given }
    ensures { IfOk result (λ told. IsAnswered H.value limit factors.now told.answer) }
{
    let Tasks {
        tasks,
        steps,
        views,
    } = given;
    drop(views);
    checked_factors_are_checked(factors);
    tasks_stand_for_files();
    answers_are_right_for_files::<H>();
    let wanted = Wanted {
        trace,
        publics: publics_of(tasks.as_slice()),
    };
    let mut counts = Vec::new(alloc);
    let mut world = begun::<H>(alloc, tasks, limit, &mut counts)?;
    let answered = run_world(
        alloc,
        factors,
        steps.as_slice(),
        &mut world,
        counts.as_slice(),
        wanted,
        err,
    )?;
    Ok(answered)
}

/// What is told of a team that searches by a heuristic.
fn run_by<H: Heuristic, E: Sink>(
    alloc: Global,
    factors: &[CheckedFactor],
    limit: u64,
    trace: bool,
    err: &mut E,
) -> Result<ToldAnswer, GroundRefusal>
    requires from_1 { 1 ≤ limit }
    requires limit { limit ≤ most_expansions }
    requires some { 1 ≤ length factors.now }
    requires at_most { length factors.now ≤ 16 }
    ensures { IfOk result (λ told. IsAnswered H.value limit factors.now told.answer) }
{
    let given = tasks(alloc, factors)?;
    Ok(run_tasks::<H, E>(alloc, factors, given, limit, trace, err)?)
}

/// What a team of 1 to 16 agents does that take turns on one thread, each of which may expand `limit` entries, from 1 to
/// 10,000,000: its answer, which is right for the files, and as text what `maplan` prints of it, with the trace before it where that is asked for, and
/// behind it a table of what each agent did, and, where the answer is undecided, which agents could not go on and the cost
/// below which there is no plan. While they run, lines on `err` tell how far they are.
///
/// It refuses where a factor is not grounded, as the first of the agents with such a factor does, and for want of memory.
pub fn run_team<E: Sink>(
    alloc: Global,
    factors: &[CheckedFactor],
    heuristic: Choice,
    limit: u64,
    trace: bool,
    err: &mut E,
) -> Result<ToldAnswer, GroundRefusal>
    requires from_1 { 1 ≤ limit }
    requires limit { limit ≤ most_expansions }
    requires some { 1 ≤ length factors.now }
    requires at_most { length factors.now ≤ 16 }
    ensures { IfOk result (λ told. IsAnswered (values_of heuristic) limit factors.now told.answer) }
{
    match heuristic {
        Choice::Blind => run_by::<Blind, E>(alloc, factors, limit, trace, err),
        Choice::Max => run_by::<Hmax, E>(alloc, factors, limit, trace, err),
        Choice::Cut => run_by::<Cut, E>(alloc, factors, limit, trace, err),
        Choice::Pdb => run_by::<Pdb, E>(alloc, factors, limit, trace, err),
    }
}
