//! What a team has found, and the text that tells it.

ghost use Rattle.std.specs.Prelude.{◌≡◌, ◌≤◌, List, length, map, IfOk};
ghost use Rattle.mp_joint.specs.declared.plan.PlanStep.{PlanStep};
ghost use Rattle.mp_messages.specs.declared.history.Entry.{Entry};
ghost use Rattle.mp_outcome.specs.Names.{names_of};
ghost use Rattle.mp_schedule.specs.Finished.{AreOfRun};
ghost use Rattle.mp_schedule.specs.TeamRun.{team_in};
ghost use Rattle.mp_solve.specs.Ended.{HasDoneAll};
ghost use Rattle.mp_text.specs.Outcome.{outcome_text};
ghost use Rattle.mp_world.specs.Answers.{answer_of, outcome_of};
ghost use Rattle.mp_world.specs.World.{World as WorldOf};

use mp_lifted::ActionBindingList;
use mp_list::{List, OutOfMemory};
use mp_machine::Machine;
use mp_messages::{Bytes, Log, Views};
use mp_outcome::named_text;
use mp_schedule::{World, outcome};
use mp_solutions::Solution;
use mp_task::Heuristic;
use mp_typing::CheckedFactor;
use mp_world::{Answer, Outcome};
use std::alloc::Global;

/// What a team has found: nothing where an agent has not ended.
fn outcome_of<H: Heuristic>(alloc: Global, machines: &[Machine<H>]) -> Result<Outcome, OutOfMemory>
    requires { AreOfRun H.value machines.now }
    ensures answer { IfOk result (λ found. (last : WorldOf) → last.agents ≡ map (λ m. m.done) machines.now
        → found.answer ≡ answer_of last) }
    ensures text { IfOk result (λ found. (last : WorldOf) → last.agents ≡ map (λ m. m.done) machines.now
        → (names : List (List PlanStep)) (log : List Entry)
        → outcome_text found names log ≡ outcome_text (outcome_of last) names log) }
{
    match outcome(alloc, machines)? {
        Some(found) => Ok(found),
        None => Ok(Outcome {
            answer: Answer::Nothing,
            shares: List::new(alloc),
        }),
    }
}

/// How a search ended, and the text that tells it.
#[derive(Drop)]
pub struct ToldAnswer {
    /// How the search ended.
    pub answer: Answer,
    /// The text that tells the answer, the plan where there is one, and how much the agents did.
    pub text: Bytes,
}

/// What a team has found whose machines are in the order of the agents, after a legal schedule, and its text by the names of
/// its files. The text counts what stands in a log, whichever of the team's logs it is. Refuses only for want of memory.
pub fn told<H: Heuristic>(
    alloc: Global,
    factors: &[CheckedFactor],
    steps: &[ActionBindingList],
    machines: &[Machine<H>],
    log: &Log,
) -> Result<ToldAnswer, OutOfMemory>
    requires team { length factors.now ≤ 16 }
    requires run { AreOfRun H.value machines.now }
    ensures answer { IfOk result (λ t. (last : WorldOf) → last.agents ≡ map (λ m. m.done) machines.now
        → t.answer ≡ answer_of last) }
    ensures text { IfOk result (λ t. (last : WorldOf) → last.agents ≡ map (λ m. m.done) machines.now
        → t.text ≡ outcome_text (outcome_of last) (names_of factors.now steps.now) log.now) }
{
    let found = outcome_of(alloc, machines)?;
    let text = named_text(alloc, factors, steps, &found, log)?;
    Ok(ToldAnswer {
        answer: found.answer,
        text,
    })
}

/// What the agents of a world have found, with its log.
pub(crate) fn solution_of<H: Heuristic>(
    alloc: Global,
    factors: &[CheckedFactor],
    steps: &[ActionBindingList],
    views: Views,
    world: World<H>,
) -> Result<Solution, OutOfMemory>
    requires team { length factors.now ≤ 16 }
    requires done { HasDoneAll (team_in H.value world) world.schedule world }
    ensures views { IfOk result (λ s. s.views ≡ views) }
    ensures log { IfOk result (λ s. s.log ≡ world.log) }
    ensures answer { IfOk result (λ s. s.answer ≡ answer_of world.world) }
    ensures text { IfOk result (λ s. s.text
        ≡ outcome_text (outcome_of world.world) (names_of factors.now steps.now) world.log) }
{
    let found = told(alloc, factors, steps, world.machines(), world.log())?;
    Ok(Solution {
        views,
        log: world.into_log(),
        answer: found.answer,
        text: found.text,
    })
}
