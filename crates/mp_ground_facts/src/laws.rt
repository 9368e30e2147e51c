//! Laws of the facts of a factor.

ghost use Rattle.std.specs.Prelude.{◌≡◌, ◌↔◌, ℕ, List, Contains, Some, slice_get};
ghost use Rattle.std.specs.List.Sorted.{IsStrictlySortedBy};
ghost use Rattle.mp_lifted.specs.declared.lifted.LiftedFactor.{LiftedFactor};
ghost use Rattle.mp_lifted.specs.Binding.{ActionBinding};
ghost use Rattle.mp_ground_facts.specs.declared.fact.GroundFact.{GroundFact};
ghost use Rattle.mp_ground_facts.specs.Facts.{fact_cmp};
ghost use Rattle.mp_ground_facts.specs.Touched.{counted};
ghost use Rattle.mp_ground_facts.specs.Ground.{facts_of, number_of};

/// The facts of a factor are those that an instance touches or a goal names. They rise in the order
/// of facts, so none stands at two places, and a fact that is counted stands at its number.
pub fn facts_are_numbered_once()
    ensures in_order { (factor : LiftedFactor) (instances : List ActionBinding)
        → IsStrictlySortedBy fact_cmp (facts_of factor instances) }
    ensures once { (factor : LiftedFactor) (instances : List ActionBinding) (f : GroundFact)
        (i j : ℕ) → slice_get (facts_of factor instances) i ≡ Some f
        → slice_get (facts_of factor instances) j ≡ Some f → i ≡ j }
    ensures counted { (factor : LiftedFactor) (instances : List ActionBinding) (f : GroundFact)
        → Contains (facts_of factor instances) f ↔ Contains (counted factor instances) f }
    ensures numbered { (factor : LiftedFactor) (instances : List ActionBinding) (f : GroundFact)
        → Contains (counted factor instances) f
        → slice_get (facts_of factor instances) (number_of (facts_of factor instances) f)
        ≡ Some f }
{}
