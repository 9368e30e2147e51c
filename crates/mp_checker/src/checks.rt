//! The check of a plan.

ghost use Rattle.std.specs.Prelude.{◌≡◌, ◌≤◌, ◌++◌, ◌∷◌, [], ℕ, List as ListOf, length, IfOk, OnOk};
ghost use Rattle.mp_forms.specs.declared.factor.Factor.{Factor as FactorParts};
ghost use Rattle.mp_joint.specs.FactorContribution.{team_of};
ghost use Rattle.mp_joint.specs.Plan.{instance_of};
ghost use Rattle.mp_plan_verdict.specs.Verdict.{verdict, verdict_from, failing_step as failing_step_of, failing_goal as failing_goal_for};
ghost use Rattle.mp_checker.specs.AgentView.{views_from};
ghost use Rattle.mp_checker.specs.At.{named_state};
ghost use Rattle.mp_checker.specs.Checked.{IfValid};
ghost use Rattle.mp_checker.specs.Marked.{true_facts};
ghost use Rattle.mp_checker.specs.Places.{HasGrown};
ghost use Rattle.mp_checker.specs.Stepped.{IsStepped, step_in};
ghost use Rattle.mp_checker.specs.Sink.{HasCome, HasPlanCome};
ghost use Rattle.mp_checker.specs.Steps.{NumberedStep};
ghost use Rattle.mp_checker.specs.Taken.{IfDone};
ghost use Rattle.mp_checker.specs.Team.{IsStep};

use crate::factor::AgentFactor;
use crate::facts::Facts;
use crate::goals::failing_goal;
use crate::room::{Room, StepPlaces, empty_room, join_asked};
use crate::sink::{NoSteps, StepSink};
use crate::start::start;
use crate::taken::{Taken, take};
use crate::team::{factor_of, numbered_team};
use crate::words::team_names;
use mp_joint::{JointPlan, PlanStep, SignedFact};
use mp_list::OutOfMemory;
use mp_plan_verdict::CheckVerdict;
use mp_sets::Agent;
use mp_typing::CheckedFactor;
use std::alloc::Global;

/// What is found where a step of this time asks for what does not hold.
fn failing_step(time: u64, first: SignedFact) -> CheckVerdict
    ensures { result ≡ failing_step_of time first }
{
    if first.positive {
        CheckVerdict::Missing(time, first.fact)
    } else {
        CheckVerdict::Forbidden(time, first.fact)
    }
}

/// What is found where a goal does not hold.
fn failing_end(first: SignedFact) -> CheckVerdict
    ensures { result ≡ failing_goal_for first }
{
    if first.positive {
        CheckVerdict::GoalMissing(first.fact)
    } else {
        CheckVerdict::GoalForbidden(first.fact)
    }
}

/// A step of a team.
fn take_step(
    alloc: Global,
    team: &[AgentFactor<'_, '_>],
    facts: &mut Facts,
    room: &mut Room,
    step: &PlanStep,
) -> Result<Taken, OutOfMemory>
    ensures taken { IfOk result (IsStep team.now (true_facts facts.old) (true_facts facts.new) step.now) }
    ensures grows { OnOk result (HasGrown facts.old.known.keys facts.new.known.keys) }
    ensures step { IfOk result (λ taken. IfDone taken ((names : ListOf (ListOf ℕ)) (factors : ListOf FactorParts)
        → team.now ≡ views_from names 1 factors
        → IsStepped names facts.new.known.keys step.now.agent (instance_of (team_of factors) step.now)
        (step_in step.now.agent room.new.places))) }
{
    match factor_of(team, step.agent) {
        Some(factor) => take(alloc, factor, facts, room, step),
        None => Ok(Taken::NoAction),
    }
}

/// Hands an action of an agent over, whose facts have these numbers.
fn hand_over<K: StepSink>(
    sink: &mut K,
    agent: Agent,
    places: &mut StepPlaces,
) -> Result<(), OutOfMemory>
    requires { HasCome (K.have_come sink.old) }
    ensures { (steps : ListOf NumberedStep) → K.have_come sink.old steps
        → OnOk result (K.have_come sink.new (steps ++ step_in agent places.old ∷ [])) }
{
    join_asked(places)?;
    sink.take(
        agent.number(),
        places.needs.as_slice(),
        places.adds.as_slice(),
        places.dels.as_slice(),
    )
}

/// What is found of a plan from a state on. Each action up to what is found is handed over.
fn check_from<K: StepSink>(
    alloc: Global,
    team: &[AgentFactor<'_, '_>],
    facts: &mut Facts,
    room: &mut Room,
    plan: &JointPlan,
    sink: &mut K,
) -> Result<CheckVerdict, OutOfMemory>
    requires short { length plan.now ≤ 4194304 }
    requires none_yet { K.have_come sink.old [] }
    ensures verdict { IfOk result (λ v. (names : ListOf (ListOf ℕ)) (factors : ListOf FactorParts)
        → team.now ≡ views_from names 1 factors
        → v ≡ verdict_from factors (named_state names (true_facts facts.old)) 1 0 plan.now) }
    ensures steps { IfOk result (λ v. IfValid v ((names : ListOf (ListOf ℕ)) (factors : ListOf FactorParts)
        → team.now ≡ views_from names 1 factors
        → HasPlanCome (K.have_come sink.new) (team_of factors) plan.now)) }
{
    let mut paid = 0_u64;
    for (place, step) in plan.as_slice().iter().enumerate() {
        let time = place as u64 + 1;
        match take_step(alloc, team, facts, room, step)? {
            Taken::NoAction => return Ok(CheckVerdict::NoAction(time)),
            Taken::Fails(first) => return Ok(failing_step(time, first)),
            Taken::Done(cost) => {
                paid += cost;
                hand_over(sink, step.agent, &mut room.places)?;
            }
        }
    }
    match failing_goal(alloc, team, facts, room)? {
        Some(first) => Ok(failing_end(first)),
        None => Ok(CheckVerdict::Valid(paid)),
    }
}

/// What `check` finds of a plan. Each action up to what is found is handed over with numbers for its facts, so that all of
/// the plan have come where it solves. Refuses only for want of memory.
pub fn check_with_steps<K: StepSink>(
    alloc: Global,
    factors: &[CheckedFactor],
    plan: &JointPlan,
    sink: &mut K,
) -> Result<CheckVerdict, OutOfMemory>
    requires team { 1 ≤ length factors.now }
    requires few { length factors.now ≤ 16 }
    requires short { length plan.now ≤ 4194304 }
    requires none_yet { K.have_come sink.old [] }
    ensures verdict { IfOk result (λ v. v ≡ verdict factors.now plan.now) }
    ensures steps { IfOk result (λ v.
        IfValid v (HasPlanCome (K.have_come sink.new) (team_of factors.now) plan.now)) }
{
    let names = team_names(alloc, factors)?;
    let team = numbered_team(alloc, &names, factors)?;
    let mut room = empty_room(alloc);
    let mut facts = start(alloc, team.as_slice(), &mut room)?;
    check_from(alloc, team.as_slice(), &mut facts, &mut room, plan, sink)
}

/// What is found of a plan of a team, whose first factor is that of agent 1: the first step that is no instance or asks
/// for what does not hold, and what it asks for first as its condition is written; else the first goal that does not
/// hold in the end, factor by factor as they are written; else what the plan costs. Refuses only for want of memory.
pub fn check(
    alloc: Global,
    factors: &[CheckedFactor],
    plan: &JointPlan,
) -> Result<CheckVerdict, OutOfMemory>
    requires team { 1 ≤ length factors.now }
    requires few { length factors.now ≤ 16 }
    requires short { length plan.now ≤ 4194304 }
    ensures { IfOk result (λ v. v ≡ verdict factors.now plan.now) }
{
    check_with_steps(alloc, factors, plan, &mut NoSteps)
}
