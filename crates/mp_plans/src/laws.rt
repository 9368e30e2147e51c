//! What holds of every outcome that is written with its plan.

ghost use Rattle.std.specs.Prelude.{◌≡◌, ℕ, ◌∷◌, List, Ok, codes, length};
ghost use Rattle.mp_joint.specs.declared.plan.PlanStep.{PlanStep};
ghost use Rattle.mp_messages.specs.declared.history.Entry.{Entry};
ghost use Rattle.mp_world.specs.declared.outcome.Outcome.{Outcome};
ghost use Rattle.mp_text.specs.Lines.{text_of_lines};
ghost use Rattle.mp_text.specs.Outcome.{agent_lines, labelled, outcome_text};
ghost use Rattle.mp_plans.specs.Plan.{plan_in};
ghost use Rattle.mp_plans.specs.Written.{IsCounted, TellsPlan};

/// The text of an outcome with a plan is read as this plan with its cost, by a team of as many agents, whatever log it
/// counts. So is what stands before the line that counts.
pub fn written_plans_are_read_again()
    ensures whole { (outcome : Outcome) (names : List (List PlanStep)) (log : List Entry) (cost : ℕ)
        (plan : List PlanStep) → TellsPlan outcome names cost plan → IsCounted log
        → plan_in (length outcome.shares) (outcome_text outcome names log)
        ≡ Ok (record { cost = cost; plan = plan }) }
    ensures uncounted { (outcome : Outcome) (names : List (List PlanStep)) (cost : ℕ) (plan : List PlanStep)
        → TellsPlan outcome names cost plan
        → plan_in (length outcome.shares) (text_of_lines (labelled (codes "cost ") cost
        ∷ labelled (codes "length ") (length plan) ∷ agent_lines names 0 outcome.shares))
        ≡ Ok (record { cost = cost; plan = plan }) }
{}
