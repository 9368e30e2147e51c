//! Laws of bindings. Each is the contract of a function that does nothing.

ghost use Rattle.std.specs.Prelude.{ℕ, Bool, List};
ghost use Rattle.std.specs.List.{AllByRecursion};
ghost use Rattle.std.specs.List.Sorted.{IsStrictlySortedBy};
ghost use Rattle.std.specs.Ordering.{nat_cmp};
ghost use Rattle.std.specs.Cmp.Lexicographic.{slice_cmp};
ghost use Rattle.mp_bindings.specs.Bindings.{found};

/// Where the members of each parameter rise, the bindings that pass do so as lists of numbers, by the first number in
/// which they differ: so no binding comes twice.
pub fn bindings_rise()
    ensures { (test : List ℕ → Bool) (members : List (List ℕ))
        → AllByRecursion (IsStrictlySortedBy nat_cmp) members
        → IsStrictlySortedBy (slice_cmp nat_cmp) (found test members) }
{}
