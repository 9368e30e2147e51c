//! Laws of types, each for every list of declarations, and a law of first faults.

ghost use Rattle.std.specs.Prelude.{◌≡◌, Bool, ℕ, List, IsTrue};
ghost use Rattle.mp_forms.specs.declared.typed_values.Typed.{Typed};
ghost use Rattle.mp_typing.specs.Faults.{IsFirst};
ghost use Rattle.mp_typing.specs.declared.fault.Fault.{Fault as FaultOf};
ghost use Rattle.mp_typing.specs.IsA.{IsA, DeclaredUnder, object_name};

/// That a type is another or lies under it is reflexive and transitive, holds where a type is declared directly under
/// another, and holds of each type and `object`.
pub fn types_are_ordered()
    ensures reflexive { (declared : List Typed) (name : List ℕ) → IsA declared name name }
    ensures transitive { (declared : List Typed) (low middle high : List ℕ) → IsA declared low middle → IsA declared middle high
        → IsA declared low high }
    ensures direct { (declared : List Typed) (sub sup : List ℕ) → DeclaredUnder declared sub sup → IsA declared sub sup }
    ensures object { (declared : List Typed) (name : List ℕ) → IsA declared name object_name }
{}

/// It holds nowhere else: every test of two types with these four laws passes where it holds.
pub fn type_order_is_least()
    ensures { (declared : List Typed) (test : List ℕ → List ℕ → Bool)
        → ((name : List ℕ) → IsTrue (test name name))
        → ((low middle high : List ℕ) → IsTrue (test low middle) → IsTrue (test middle high) → IsTrue (test low high))
        → ((sub sup : List ℕ) → DeclaredUnder declared sub sup → IsTrue (test sub sup))
        → ((name : List ℕ) → IsTrue (test name object_name))
        → (sub sup : List ℕ) → IsA declared sub sup → IsTrue (test sub sup) }
{}

/// Of some faults one alone is the first.
pub fn first_fault_is_one()
    ensures { (faults : List FaultOf) (a b : FaultOf) → IsFirst faults a → IsFirst faults b → a ≡ b }
{}
