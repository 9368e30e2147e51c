//! Worked plans. Each law is the contract of a function that does nothing.

ghost use Rattle.std.specs.Prelude.{◌≡◌, [], ◌∷◌, codes};
ghost use Rattle.mp_joint.specs.Examples.{step};
ghost use Rattle.mp_steps.specs.Examples.{two_agents, one_each, asking, asking_against, adding, deleting, doing_both, of_four, of_pairs};
ghost use Rattle.mp_steps.specs.Levels.{levels};
ghost use Rattle.mp_steps.specs.PlanSteps.{plan_steps, plan_chain};
ghost use Rattle.mp_steps.specs.Steps.{steps, chain};

/// What one action adds or deletes and the other asks for or against keeps them in their order, and so does what one adds
/// and the other deletes, also where that one adds it too. Two actions that add one fact, delete one fact or ask for one
/// fact may be done at the same time; two of one agent may not.
pub fn worked_steps()
    ensures asked_and_deleted { plan_steps (two_agents asking deleting) one_each ≡ (1 ∷ []) ∷ (2 ∷ []) ∷ [] }
    ensures against_and_added { plan_steps (two_agents asking_against adding) one_each ≡ (1 ∷ []) ∷ (2 ∷ []) ∷ [] }
    ensures added_and_asked { plan_steps (two_agents adding asking) one_each ≡ (1 ∷ []) ∷ (2 ∷ []) ∷ [] }
    ensures added_and_deleted { plan_steps (two_agents adding deleting) one_each ≡ (1 ∷ []) ∷ (2 ∷ []) ∷ [] }
    ensures deleted_and_added { plan_steps (two_agents deleting adding) one_each ≡ (1 ∷ []) ∷ (2 ∷ []) ∷ [] }
    ensures both_and_added { plan_steps (two_agents doing_both adding) one_each ≡ (1 ∷ []) ∷ (2 ∷ []) ∷ [] }
    ensures two_adds { plan_steps (two_agents adding adding) one_each ≡ (1 ∷ 2 ∷ []) ∷ [] }
    ensures two_deletes { plan_steps (two_agents deleting deleting) one_each ≡ (1 ∷ 2 ∷ []) ∷ [] }
    ensures asked_by_two { plan_steps (two_agents asking asking) one_each ≡ (1 ∷ 2 ∷ []) ∷ [] }
    ensures of_one_agent { plan_steps (two_agents asking asking)
        (step 1 (codes "a") ∷ step 1 (codes "a") ∷ []) ≡ (1 ∷ []) ∷ (2 ∷ []) ∷ [] }
{}

/// A level is 1 more than the greatest of the earlier ones that interfere, not than that of the last one. The chain has
/// the lowest time that there is: of the last step, and of each step before. A plan without actions has no step, and an
/// empty chain.
pub fn worked_chains()
    ensures greatest { levels of_four 4 ≡ 1 ∷ 2 ∷ 1 ∷ 3 ∷ [] }
    ensures steps_of_four { steps (levels of_four 4) 4 ≡ (1 ∷ 3 ∷ []) ∷ (2 ∷ []) ∷ (4 ∷ []) ∷ [] }
    ensures of_four { chain of_four (levels of_four 4) 4 ≡ 1 ∷ 2 ∷ 4 ∷ [] }
    ensures pairs { steps (levels of_pairs 4) 4 ≡ (1 ∷ 2 ∷ []) ∷ (3 ∷ 4 ∷ []) ∷ [] }
    ensures lowest { chain of_pairs (levels of_pairs 4) 4 ≡ 1 ∷ 3 ∷ [] }
    ensures lowest_before { chain of_pairs (1 ∷ 1 ∷ 1 ∷ 2 ∷ []) 4 ≡ 1 ∷ 4 ∷ [] }
    ensures one_step { plan_chain (two_agents adding adding) one_each ≡ 1 ∷ [] }
    ensures no_step { plan_steps (two_agents adding adding) [] ≡ [] }
    ensures no_chain { plan_chain (two_agents adding adding) [] ≡ [] }
{}
