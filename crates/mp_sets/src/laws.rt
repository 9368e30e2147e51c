//! Laws of how sets compare.

ghost use Rattle.std.specs.Prelude.{◌≡◌, ◌↔◌, ℕ, IsTrue};
ghost use Rattle.std.specs.Ordering.{is_eq};
ghost use Rattle.std.specs.FinSet as set;
ghost use Rattle.mp_sets.specs.Numbers.{Numbers, SizedSet};
ghost use Rattle.mp_sets.specs.Compared.{binary, sized_eq, sized_cmp};

/// Sets are equal, and tie in their order, exactly where their sizes and their members are the same.
pub fn equal_sets_are_one()
    ensures equality { (s t : SizedSet) → IsTrue (sized_eq s t) ↔ (s ≡ t) }
    ensures order { (s t : SizedSet) → IsTrue (is_eq (sized_cmp s t)) ↔ (s ≡ t) }
{}
