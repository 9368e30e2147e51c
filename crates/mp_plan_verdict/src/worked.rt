//! Worked verdicts. Each law is the contract of a function that does nothing.

ghost use Rattle.std.specs.Prelude.{◌≡◌, [], ◌∷◌, true, false, None, codes};
ghost use Rattle.mp_joint.specs.Examples.{asked, negated, clearing, crossing, waiting, holding, doing, keeping, step, fact};
ghost use Rattle.mp_plan_verdict.specs.declared.verdict.CheckVerdict.TheVariants.{Valid, NoAction, Missing, Forbidden, GoalMissing, GoalForbidden};
ghost use Rattle.mp_plan_verdict.specs.Examples.{going, wanting, paying, by_number, by_function, placing, missing_it};
ghost use Rattle.mp_plan_verdict.specs.Verdict.{verdict};

/// One agent clears the way and the other crosses, at cost 2; crossing alone is forbidden as long as the way is busy.
/// Of two conditions that fail the one that is written first is told. What an action deletes and adds is true
/// afterwards.
pub fn worked_steps()
    ensures solves { verdict (clearing ∷ crossing ∷ [])
        (step 1 (codes "clear") ∷ step 2 (codes "cross") ∷ []) ≡ Valid 2 }
    ensures forbidden { verdict (clearing ∷ crossing ∷ []) (step 2 (codes "cross") ∷ [])
        ≡ Forbidden 1 (fact (codes "busy")) }
    ensures second { verdict (clearing ∷ crossing ∷ []) (step 1 (codes "clear") ∷ step 1 (codes "clear") ∷ [])
        ≡ Missing 2 (fact (codes "busy")) }
    ensures negative_first { verdict (going (negated (codes "busy") ∷ asked (codes "held") ∷ []) ∷ [])
        (step 1 (codes "go") ∷ []) ≡ Forbidden 1 (fact (codes "busy")) }
    ensures positive_first { verdict (going (asked (codes "held") ∷ negated (codes "busy") ∷ []) ∷ [])
        (step 1 (codes "go") ∷ []) ≡ Missing 1 (fact (codes "held")) }
    ensures deleted_and_added { verdict (holding ∷ []) (step 1 (codes "hold") ∷ []) ≡ Valid 1 }
{}

/// A step is no instance where its agent has no factor, or its action is another agent's. With a metric it costs what
/// its increases say, and is no instance where a value is missing; without one it costs 1.
pub fn worked_instances()
    ensures no_agent { verdict (clearing ∷ crossing ∷ []) (step 3 (codes "clear") ∷ []) ≡ NoAction 1 }
    ensures another { verdict (clearing ∷ crossing ∷ [])
        (step 1 (codes "clear") ∷ step 1 (codes "cross") ∷ []) ≡ NoAction 2 }
    ensures with_metric { verdict (paying true (by_number 7 ∷ []) ∷ []) (step 1 (codes "pay") ∷ []) ≡ Valid 7 }
    ensures no_increase { verdict (paying true [] ∷ []) (step 1 (codes "pay") ∷ []) ≡ Valid 0 }
    ensures without { verdict (paying false (by_number 7 ∷ []) ∷ []) (step 1 (codes "pay") ∷ []) ≡ Valid 1 }
    ensures no_value { verdict (paying true (by_function ∷ []) ∷ []) (step 1 (codes "pay") ∷ []) ≡ NoAction 1 }
{}

/// Goals are looked at factor by factor, as they are written. A private fact is none of another agent's, however it is
/// spelt, and so is a public predicate of a private object.
pub fn worked_goals()
    ensures avoided { verdict (waiting ∷ []) [] ≡ Valid 0 }
    ensures not_avoided { verdict (waiting ∷ clearing ∷ []) [] ≡ GoalForbidden (fact (codes "busy")) }
    ensures missing { verdict (crossing ∷ []) [] ≡ GoalMissing (fact (codes "over")) }
    ensures first_factor { verdict (crossing ∷ clearing ∷ waiting ∷ []) [] ≡ GoalMissing (fact (codes "over")) }
    ensures first_written { verdict (clearing ∷ wanting (negated (codes "busy") ∷ asked (codes "over") ∷ []) ∷ []) []
        ≡ GoalForbidden (fact (codes "busy")) }
    ensures private_predicate { verdict (doing ∷ keeping ∷ []) (step 1 (codes "do") ∷ []) ≡ Valid 1 }
    ensures private_object { verdict (placing true ∷ missing_it true ∷ []) (step 1 (codes "place") ∷ []) ≡ Valid 1 }
    ensures public_object { verdict (placing false ∷ missing_it false ∷ []) (step 1 (codes "place") ∷ [])
        ≡ GoalForbidden (record { owner = None; predicate = codes "put"; args = codes "box" ∷ [] }) }
{}
