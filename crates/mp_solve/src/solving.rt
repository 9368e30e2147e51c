//! What the agents of a team find.

ghost use Rattle.std.specs.Prelude.{◌≡◌, ◌≤◌, ℕ, length, Some, slice_get, IfOk, IfErr, OnOk};
ghost use Rattle.mp_forms.specs.declared.factor.Factor.{Factor};
ghost use Rattle.mp_grounder.specs.Limits.{IsWithin};
ghost use Rattle.mp_solutions.specs.Solution.{IsSolution};
ghost use Rattle.mp_split.specs.Team.{AreTasksOf, IsFirstRefusal, known_at};
ghost use Rattle.mp_world.specs.Team.{most_expansions};

use crate::machines::ended;
use crate::telling::solution_of;
use mp_ground_laws::laws::checked_factors_are_checked;
use mp_grounder::GroundRefusal;
use mp_list::OutOfMemory;
use mp_solutions::{Solution, answers_are_right_for_files};
use mp_split::{Tasks, tasks};
use mp_stands::tasks::tasks_stand_for_files;
use mp_task::Heuristic;
use mp_typing::CheckedFactor;
use std::alloc::Global;

/// What the agents with these tasks find.
fn solved<H: Heuristic>(
    alloc: Global,
    factors: &[CheckedFactor],
    given: Tasks,
    limit: u64,
) -> Result<Solution, OutOfMemory>
    requires from_1 { 1 ≤ limit }
    requires limit { limit ≤ most_expansions }
    requires some { 1 ≤ length factors.now }
    requires at_most { length factors.now ≤ 16 }
    requires tasks { AreTasksOf factors.now given }
    ensures { IfOk result (IsSolution H.value limit factors.now) }
{
    let Tasks {
        tasks,
        steps,
        views,
    } = given;
    checked_factors_are_checked(factors);
    tasks_stand_for_files();
    answers_are_right_for_files::<H>();
    let world = ended::<H>(alloc, tasks, limit)?;
    solution_of(alloc, factors, steps.as_slice(), views, world)
}

/// What the agents of a team find, each of which expands at most `limit` entries, from 1 to 10,000,000: their factors are
/// grounded, each gets its task, and they take turns until all have ended. There are 1 to 16 agents.
///
/// It refuses where a factor is not grounded, as the first of the agents with such a factor does, and for want of memory.
#[tactic(auto, using(mp_split::proofs::FirstAgents::no_memory))]
pub fn solve<H: Heuristic>(
    alloc: Global,
    factors: &[CheckedFactor],
    limit: u64,
) -> Result<Solution, GroundRefusal>
    requires from_1 { 1 ≤ limit }
    requires limit { limit ≤ most_expansions }
    requires some { 1 ≤ length factors.now }
    requires at_most { length factors.now ≤ 16 }
    ensures solution { IfOk result (IsSolution H.value limit factors.now) }
    ensures within { OnOk result ((place : ℕ) (factor : Factor) → slice_get factors.now place ≡ Some factor
        → IsWithin (known_at factors.now place factor)) }
    ensures refused { IfErr result (IsFirstRefusal factors.now) }
{
    let given = tasks(alloc, factors)?;
    Ok(solved::<H>(alloc, factors, given, limit)?)
}
