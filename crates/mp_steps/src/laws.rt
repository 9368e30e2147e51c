//! What the steps and the chain of a plan are good for. Each law is the contract of a function that does nothing.

ghost use Rattle.std.specs.Prelude.{◌≡◌, ◌<◌, ◌≤◌, ◌+◌, ℕ, true, List, Some, Contains, length, slice_get};
ghost use Rattle.mp_joint.specs.declared.plan.PlanStep.{PlanStep};
ghost use Rattle.mp_joint.specs.Plan.{Contribution, Solves, cost};
ghost use Rattle.mp_checker.specs.Steps.{NumberedStep};
ghost use Rattle.mp_steps.specs.Interference.{interfere_at};
ghost use Rattle.mp_steps.specs.Levels.{levels};
ghost use Rattle.mp_steps.specs.Numbered.{clash_at};
ghost use Rattle.mp_steps.specs.Packing.{IsPacking, IsChain, WritesOut};
ghost use Rattle.mp_steps.specs.PlanSteps.{plan_steps, plan_chain, in_order};
ghost use Rattle.mp_steps.specs.Steps.{steps, chain};

/// The steps of a plan are a packing of it: each action stands in them once, and of two that interfere the earlier one
/// stands in an earlier step.
pub fn steps_are_a_packing()
    ensures { (team : List Contribution) (plan : List PlanStep)
        → IsPacking (interfere_at team plan) (length plan) (plan_steps team plan) }
{}

/// Every plan that is made by writing the steps of a plan one after another, each in any order, solves where the plan
/// does, and costs the same.
pub fn orders_of_steps_solve()
    ensures solves { (team : List Contribution) (plan : List PlanStep) (order : List ℕ)
        → WritesOut (plan_steps team plan) order → Solves team plan → Solves team (in_order plan order) }
    ensures costs { (team : List Contribution) (plan : List PlanStep) (order : List ℕ)
        → WritesOut (plan_steps team plan) order → cost team (in_order plan order) ≡ cost team plan }
{}

/// The chain of a plan has one time of each step; they rise, and the action of each interferes with that of the next. So
/// no packing of the plan has fewer steps, and any two neighbouring steps hold two actions that interfere: they cannot be
/// made one.
pub fn chains_keep_steps_apart()
    ensures chain { (team : List Contribution) (plan : List PlanStep)
        → IsChain (interfere_at team plan) (plan_steps team plan) (plan_chain team plan) }
    ensures fewest { (team : List Contribution) (plan : List PlanStep) (packing : List (List ℕ))
        → IsPacking (interfere_at team plan) (length plan) packing
        → length (plan_steps team plan) ≤ length packing }
    ensures neighbours { (team : List Contribution) (plan : List PlanStep) (place : ℕ) (step next : List ℕ)
        → slice_get (plan_steps team plan) place ≡ Some step
        → slice_get (plan_steps team plan) (place + 1) ≡ Some next
        → (t : ℕ) × (u : ℕ) × Contains step t × Contains next u × (t < u) × (interfere_at team plan t u ≡ true) }
{}

/// Where actions with numbers for their facts clash exactly as the actions of a plan interfere, time by time, their steps
/// and their chain are those of the plan.
pub fn numbered_actions_stand_for_plans()
    ensures steps { (team : List Contribution) (plan : List PlanStep) (numbered : List NumberedStep)
        → length numbered ≡ length plan
        → ((t u : ℕ) → clash_at numbered t u ≡ interfere_at team plan t u)
        → steps (levels (clash_at numbered) (length numbered)) (length numbered) ≡ plan_steps team plan }
    ensures chain { (team : List Contribution) (plan : List PlanStep) (numbered : List NumberedStep)
        → length numbered ≡ length plan
        → ((t u : ℕ) → clash_at numbered t u ≡ interfere_at team plan t u)
        → chain (clash_at numbered) (levels (clash_at numbered) (length numbered)) (length numbered)
        ≡ plan_chain team plan }
{}
