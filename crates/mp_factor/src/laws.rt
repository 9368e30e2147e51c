//! A law of first faults.

ghost use Rattle.std.specs.Prelude.{◌≡◌, List};
ghost use Rattle.mp_forms.specs.declared.fault.Fault.{Fault as FaultOf};
ghost use Rattle.mp_forms.specs.Faults.{IsFirst};

/// Of some faults one alone is the first.
pub fn first_fault_is_one()
    ensures { (faults : List FaultOf) (a b : FaultOf) → IsFirst faults a → IsFirst faults b → a ≡ b }
{}
