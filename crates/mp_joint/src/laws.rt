//! Worked teams. Each law is the contract of a function that does nothing.

ghost use Rattle.std.specs.Prelude.{◌≡◌, [], ◌∷◌, true, false, codes};
ghost use Rattle.mp_joint.specs.Examples.{clearing, crossing, waiting, holding, doing, keeping, telling, step, fact, instance, with_a_road};
ghost use Rattle.mp_joint.specs.Fact.{plain, complement};
ghost use Rattle.mp_joint.specs.Grounded.{suits_start, needed, added, deleted};
ghost use Rattle.mp_joint.specs.FactorContribution.{team_of};
ghost use Rattle.mp_joint.specs.Plan.{Solves, cost};
ghost use Rattle.mp_joint.specs.Static.{is_static, is_negated};

/// One agent clears the way and the other crosses: together they solve it at cost 2, and crossing alone does not, as
/// long as the way is busy. A goal under `not` holds where its fact is false at the start, and else does not. What an
/// action deletes and adds is true afterwards.
pub fn worked_plans()
    ensures solves { Solves (team_of (clearing ∷ crossing ∷ []))
        (step 1 (codes "clear") ∷ step 2 (codes "cross") ∷ []) }
    ensures costs { cost (team_of (clearing ∷ crossing ∷ []))
        (step 1 (codes "clear") ∷ step 2 (codes "cross") ∷ []) ≡ 2 }
    ensures forbidden { Solves (team_of (clearing ∷ crossing ∷ [])) (step 2 (codes "cross") ∷ []) → ⊥ }
    ensures another { Solves (team_of (clearing ∷ crossing ∷ [])) (step 1 (codes "cross") ∷ []) → ⊥ }
    ensures avoided { Solves (team_of (waiting ∷ [])) [] }
    ensures not_avoided { Solves (team_of (waiting ∷ clearing ∷ [])) [] → ⊥ }
    ensures deleted_and_added { Solves (team_of (holding ∷ [])) (step 1 (codes "hold") ∷ []) }
{}

/// A public predicate is static where no factor that has it publicly changes it, and negated where one has it under
/// `not`; a private predicate is a matter of its own factor alone, whatever else is spelt alike.
pub fn worked_predicates()
    ensures changed_by_another { is_static (clearing ∷ crossing ∷ []) crossing (codes "busy") ≡ false }
    ensures changed_by_none { is_static (waiting ∷ crossing ∷ []) crossing (codes "busy") ≡ true }
    ensures private { is_static (doing ∷ keeping ∷ []) keeping (codes "done") ≡ true }
    ensures private_changed { is_static (doing ∷ keeping ∷ []) doing (codes "done") ≡ false }
    ensures public { is_static (doing ∷ telling ∷ []) telling (codes "done") ≡ true }
    ensures negated_by_another { is_negated (clearing ∷ crossing ∷ []) clearing (codes "busy") ≡ true }
    ensures negated_by_none { is_negated (clearing ∷ crossing ∷ []) crossing (codes "over") ≡ false }
    ensures private_negated { is_negated (doing ∷ keeping ∷ telling ∷ []) keeping (codes "done") ≡ true }
    ensures public_not_negated { is_negated (doing ∷ keeping ∷ telling ∷ []) telling (codes "done") ≡ false }
{}

/// Static preconditions are looked at once, at the start, whether they are to be true or false, and left out; each
/// other negative one is a complement. What takes a fact away adds its complement, and what adds it takes the
/// complement away; what does both leaves the fact true and the complement false.
pub fn worked_groundings()
    ensures suits { suits_start with_a_road (instance (codes "road" ∷ codes "on" ∷ []) [] [] []) ≡ true }
    ensures unsuited { suits_start with_a_road (instance [] (codes "road" ∷ codes "on" ∷ []) [] []) ≡ false }
    ensures needed { needed with_a_road (instance (codes "road" ∷ codes "on" ∷ []) (codes "busy" ∷ []) [] [])
        ≡ plain (fact (codes "on")) ∷ complement (fact (codes "busy")) ∷ [] }
    ensures taken_away { added with_a_road (instance [] [] [] (codes "busy" ∷ codes "off" ∷ []))
        ≡ complement (fact (codes "busy")) ∷ [] }
    ensures made_true { deleted with_a_road (instance [] [] (codes "busy" ∷ codes "off" ∷ []) [])
        ≡ complement (fact (codes "busy")) ∷ [] }
    ensures both_add { added with_a_road (instance [] [] (codes "on" ∷ []) (codes "on" ∷ []))
        ≡ plain (fact (codes "on")) ∷ [] }
    ensures both_delete { deleted with_a_road (instance [] [] (codes "on" ∷ []) (codes "on" ∷ []))
        ≡ plain (fact (codes "on")) ∷ complement (fact (codes "on")) ∷ [] }
{}
