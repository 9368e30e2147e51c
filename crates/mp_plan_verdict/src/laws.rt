//! What verdicts say of plans. Each law is the contract of a function that does nothing.

ghost use Rattle.std.specs.Prelude.{◌≡◌, ◌↔◌, ℕ, List};
ghost use Rattle.mp_forms.specs.declared.factor.Factor.{Factor};
ghost use Rattle.mp_joint.specs.declared.plan.PlanStep.{PlanStep};
ghost use Rattle.mp_joint.specs.FactorContribution.{team_of};
ghost use Rattle.mp_joint.specs.Plan.{Solves, cost};
ghost use Rattle.mp_plan_verdict.specs.declared.verdict.CheckVerdict.TheVariants.{Valid};
ghost use Rattle.mp_plan_verdict.specs.Means.{Means};
ghost use Rattle.mp_plan_verdict.specs.Verdict.{verdict};

/// The verdict on a plan says what is so of it; and it is that the plan is valid at a cost exactly where the plan solves
/// the united problem and costs that.
pub fn verdicts_are_right()
    ensures means { (factors : List Factor) (plan : List PlanStep) → Means factors plan (verdict factors plan) }
    ensures valid { (factors : List Factor) (plan : List PlanStep) (c : ℕ)
        → (verdict factors plan ≡ Valid c)
        ↔ (Solves (team_of factors) plan × (cost (team_of factors) plan ≡ c)) }
{}
