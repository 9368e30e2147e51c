//! The tests of types decide the relations. Each law holds for every list of declarations.

ghost use Rattle.std.specs.Bool.{Decides};
ghost use Rattle.std.specs.Prelude.{ℕ, List};
ghost use Rattle.mp_forms.specs.declared.typed_values.Typed.{Typed};
ghost use Rattle.mp_typing.specs.IsA.{IsUnderOne};
ghost use Rattle.mp_typing.specs.Members.{IsOfType};
ghost use Rattle.mp_typing.specs.Under.{lies_under, is_of_type};

/// The test of a type along the declarations passes exactly where the type is one of some types or lies under
/// one; the test of an object passes exactly where it is of one of the asked types, `object` where none is asked.
pub fn type_test_decides()
    ensures under { (declared : List Typed) (tops : List (List ℕ)) (name : List ℕ)
        → Decides (lies_under declared tops name) (IsUnderOne declared tops name) }
    ensures object { (declared : List Typed) (asked : List (List ℕ)) (object : Typed)
        → Decides (is_of_type declared asked object) (IsOfType declared asked object) }
{}
