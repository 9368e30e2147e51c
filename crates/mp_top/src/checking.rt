//! What is found of a plan.

ghost use Rattle.std.specs.Prelude.{◌≡◌, ◌≤◌, ◌==◌, ◌∷◌, [], true, false, List as ListOf, length, IfOk, IfErr, if◌then◌else◌};
ghost use Rattle.mp_forms.specs.declared.factor.Factor.{Factor as FactorParts};
ghost use Rattle.mp_plan_verdict.specs.declared.verdict.CheckVerdict.TheVariants.{Valid};
ghost use Rattle.mp_plans.specs.Packed.{steps_text as steps_text_of};
ghost use Rattle.mp_plans.specs.Verdict.{verdict_text as verdict_text_of};
ghost use Rattle.mp_steps.specs.Packed.{IsRefused};
ghost use Rattle.mp_top.specs.Asked.Work.{checked as checked_work};
ghost use Rattle.mp_top.specs.Decided.{ChecksFor, IsRefusedTeam, IsToldByTeam, IsToldOfPlan, IsToldOfSteps};
ghost use Rattle.mp_top.specs.Outcome.{plan_status};

use crate::decision::Decision;
use crate::refusal::{FirstRefusal, Refusal};
use crate::status::Status;
use mp_checker::{CheckVerdict, check};
use mp_list::{List, OutOfMemory};
use mp_messages::{Bytes, Log};
use mp_optimality::is_valid;
use mp_plans::{PlanText, read_plan, steps_text, verdict_text};
use mp_steps::{PackRefusal, Packed, pack};
use mp_text::LineRefusal;
use mp_typing::CheckedFactor;
use mp_world::Answer;
use std::alloc::Global;

/// The status of a call that printed what is found of a plan.
fn status_of_plan(found: &CheckVerdict, stated: u64) -> Status
    ensures { result ≡ plan_status found.now stated }
{
    if is_valid(found, stated) {
        return Status::Solved;
    }
    Status::No
}

/// What is found of a plan as a decision, which leaves the report empty.
fn found_of_plan(alloc: Global, found: &CheckVerdict, stated: u64) -> Result<Decision, OutOfMemory>
    ensures { IfOk result (IsToldOfPlan found.now stated) }
{
    Ok(Decision {
        views: List::new(alloc),
        log: Log::new(alloc),
        answer: Answer::Nothing,
        before: List::new(alloc),
        text: verdict_text(alloc, found, stated)?,
        status: status_of_plan(found, stated),
    })
}

/// What is found of a plan as a decision.
fn check_plan(
    alloc: Global,
    team: &[CheckedFactor],
    plan: &PlanText,
) -> Result<Decision, OutOfMemory>
    requires some { 1 ≤ length team.now }
    requires at_most { length team.now ≤ 16 }
    requires short { length plan.now.plan ≤ 4194304 }
    ensures { IfOk result (IsToldByTeam false team.now plan.now) }
{
    let found = check(alloc, team, &plan.plan)?;
    found_of_plan(alloc, &found, plan.cost)
}

/// The text of the steps of a plan, where it costs what its text states, and else what it costs.
fn text_of_steps(alloc: Global, packed: &Packed, plan: &PlanText) -> Result<Bytes, OutOfMemory>
    ensures { IfOk result (λ text. text ≡ (if packed.now.cost == plan.now.cost
        then steps_text_of plan.now.plan packed.now
        else verdict_text_of (Valid packed.now.cost) plan.now.cost)) }
{
    if packed.cost == plan.cost {
        return steps_text(alloc, &plan.plan, packed);
    }
    let found = CheckVerdict::Valid(packed.cost);
    verdict_text(alloc, &found, plan.cost)
}

/// The steps of a plan as a decision, which leaves the report empty.
fn told_steps(alloc: Global, packed: &Packed, plan: &PlanText) -> Result<Decision, OutOfMemory>
    ensures { IfOk result (IsToldOfSteps packed.now plan.now) }
{
    let found = CheckVerdict::Valid(packed.cost);
    Ok(Decision {
        views: List::new(alloc),
        log: Log::new(alloc),
        answer: Answer::Nothing,
        before: List::new(alloc),
        text: text_of_steps(alloc, packed, plan)?,
        status: status_of_plan(&found, plan.cost),
    })
}

/// What is found of a plan that has no steps as a decision.
fn told_refusal(
    alloc: Global,
    refusal: PackRefusal,
    plan: &PlanText,
) -> Result<Decision, OutOfMemory>
    ensures { IfOk result (λ d. (team : ListOf FactorParts) → IsRefused team plan.now.plan refusal
        → IsToldByTeam true team plan.now d) }
{
    match refusal {
        PackRefusal::Invalid(found) => found_of_plan(alloc, &found, plan.cost),
        PackRefusal::OutOfMemory => Err(OutOfMemory),
    }
}

/// The steps of a plan as a decision, where it solves at the cost that its text states, and else what is found of it.
fn pack_plan(
    alloc: Global,
    team: &[CheckedFactor],
    plan: &PlanText,
) -> Result<Decision, OutOfMemory>
    requires some { 1 ≤ length team.now }
    requires at_most { length team.now ≤ 16 }
    requires short { length plan.now.plan ≤ 4194304 }
    ensures { IfOk result (IsToldByTeam true team.now plan.now) }
{
    match pack(alloc, team, &plan.plan) {
        Ok(packed) => told_steps(alloc, &packed, plan),
        Err(refusal) => told_refusal(alloc, refusal, plan),
    }
}

/// The decision about a plan that was read, with its steps where they are asked for.
fn tell_plan(
    alloc: Global,
    team: &[CheckedFactor],
    plan: &PlanText,
    steps: bool,
) -> Result<Decision, OutOfMemory>
    requires some { 1 ≤ length team.now }
    requires at_most { length team.now ≤ 16 }
    requires short { length plan.now.plan ≤ 4194304 }
    ensures { IfOk result (IsToldByTeam steps team.now plan.now) }
{
    if steps {
        pack_plan(alloc, team, plan)
    } else {
        check_plan(alloc, team, plan)
    }
}

/// What is found of the plan of a text, for a team: its line that is refused, or the decision about it.
pub(crate) fn check_for(
    alloc: Global,
    team: &[CheckedFactor],
    text: &[u8],
    steps: bool,
) -> Result<Decision, Refusal>
    requires some { 1 ≤ length team.now }
    requires at_most { length team.now ≤ 16 }
    requires short { length text.now ≤ 4194304 }
    ensures outcome { IfOk result (ChecksFor steps text.now team.now) }
    ensures refused { IfErr result (IsRefusedTeam checked_work team.now (text.now ∷ [])) }
{
    match read_plan(alloc, text, team.len() as u16) {
        Ok(plan) => Ok(tell_plan(alloc, team, &plan, steps)?),
        Err(LineRefusal::Line(number)) => Err(Refusal::First(0, FirstRefusal::Line(number))),
        Err(LineRefusal::OutOfMemory) => Err(Refusal::from(OutOfMemory)),
    }
}
