//! The steps and the chain of a plan.

ghost use Rattle.std.specs.Prelude.{◌≡◌, ◌≤◌, List as ListOf, length, IfOk, IfErr, MatchOption};
ghost use Rattle.mp_forms.specs.declared.factor.Factor.{Factor};
ghost use Rattle.mp_joint.specs.declared.plan.PlanStep.{PlanStep};
ghost use Rattle.mp_joint.specs.FactorContribution.{team_of};
ghost use Rattle.mp_joint.specs.Plan.{Contribution};
ghost use Rattle.mp_checker.specs.Checked.{IfValid};
ghost use Rattle.mp_plan_verdict.specs.Verdict.{verdict};
ghost use Rattle.mp_plan_verdict.specs.declared.verdict.CheckVerdict.TheVariants.{Valid};
ghost use Rattle.mp_steps.specs.Levelled.{AreMetIn};
ghost use Rattle.mp_steps.specs.Packed.{IsNotValid, IsPacked, IsRefused};
ghost use Rattle.mp_steps.specs.PlanSteps.{plan_chain, plan_steps};

use crate::group::{StepLists, Times};
use crate::level::no_levels;
use crate::mark::Mark;
use crate::packed::{Packing, packing_of};
use mp_checker::{CheckVerdict, check_with_steps};
use mp_joint::JointPlan;
use mp_list::OutOfMemory;
use mp_typing::CheckedFactor;
use std::alloc::Global;

/// What a plan costs, the times of its actions that may be done at the same time, step by step, and a chain through the
/// steps.
#[derive(Drop)]
pub struct Packed {
    pub cost: u64,
    pub steps: StepLists,
    pub chain: Times,
}

/// Why a plan has no steps.
#[derive(Drop)]
pub enum PackRefusal {
    /// It does not solve; this is found of it.
    Invalid(CheckVerdict),
    /// No memory was left.
    OutOfMemory,
}

impl From<OutOfMemory> for PackRefusal {
    ghost use Rattle.std.specs.Prelude.{◌≡◌};
    ghost use Rattle.mp_steps.specs.declared.plan.PackRefusal.TheVariants as refusals;

    ghost from_gives = { λ _ e. e ≡ refusals.OutOfMemory };

    fn from(_e: OutOfMemory) -> PackRefusal {
        PackRefusal::OutOfMemory
    }
}

/// What a plan costs that solves: none where it does not.
fn cost_of(found: &CheckVerdict) -> Option<u64>
    ensures { MatchOption result (IsNotValid found.now) (λ cost. found.now ≡ Valid cost) }
{
    match found {
        CheckVerdict::Valid(cost) => Some(*cost),
        CheckVerdict::NoAction(_) => None,
        CheckVerdict::Missing(_, _) => None,
        CheckVerdict::Forbidden(_, _) => None,
        CheckVerdict::GoalMissing(_) => None,
        CheckVerdict::GoalForbidden(_) => None,
    }
}

/// The steps and the chain of the actions of a plan that solves at this cost, by what they met.
fn packed_at(alloc: Global, mets: &[Mark], cost: u64) -> Result<Packed, OutOfMemory>
    ensures cost { IfOk result (λ packed. packed.cost ≡ cost) }
    ensures steps { IfOk result (λ packed. (team : ListOf Contribution) (plan : ListOf PlanStep)
        → AreMetIn team plan mets.now → packed.steps ≡ plan_steps team plan) }
    ensures chain { IfOk result (λ packed. (team : ListOf Contribution) (plan : ListOf PlanStep)
        → AreMetIn team plan mets.now → packed.chain ≡ plan_chain team plan) }
{
    let packing = packing_of(alloc, mets)?;
    let Packing { steps, chain } = packing;
    Ok(Packed { cost, steps, chain })
}

/// The steps and the chain of a plan, by what its actions met, or what was found of it.
fn pack_checked(alloc: Global, found: CheckVerdict, mets: &[Mark]) -> Result<Packed, PackRefusal>
    ensures packed { (factors : ListOf Factor) (plan : ListOf PlanStep) → found ≡ verdict factors plan
        → IfValid found (AreMetIn (team_of factors) plan mets.now)
        → IfOk result (IsPacked factors plan) }
    ensures refused { (factors : ListOf Factor) (plan : ListOf PlanStep) → found ≡ verdict factors plan
        → IfErr result (IsRefused factors plan) }
{
    match cost_of(&found) {
        Some(cost) => Ok(packed_at(alloc, mets, cost)?),
        None => Err(PackRefusal::Invalid(found)),
    }
}

/// Which actions of a plan of a team, whose first factor is that of agent 1, may be done at the same time, and a chain that
/// shows that no packing of the plan has fewer steps. The time grows with the facts of the actions, and not with the
/// square of their number. A plan that does not solve is refused with what is found of it.
pub fn pack(
    alloc: Global,
    factors: &[CheckedFactor],
    plan: &JointPlan,
) -> Result<Packed, PackRefusal>
    requires team { 1 ≤ length factors.now }
    requires few { length factors.now ≤ 16 }
    requires short { length plan.now ≤ 4194304 }
    ensures packed { IfOk result (IsPacked factors.now plan.now) }
    ensures refused { IfErr result (IsRefused factors.now plan.now) }
{
    let mut levels = no_levels(alloc, plan.len())?;
    let found = check_with_steps(alloc, factors, plan, &mut levels)?;
    pack_checked(alloc, found, levels.mets.as_slice())
}
