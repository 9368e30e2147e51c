//! Laws of the values of facts. Each is the contract of a function that does nothing.

ghost use Rattle.std.specs.Prelude.{List};
ghost use Rattle.mp_sets.specs.Numbers.{Numbers};
ghost use Rattle.mp_task.specs.Strips.{Operator};
ghost use Rattle.mp_relaxed.specs.Values.{AreGreatest, fact_values};

/// The values of facts are the greatest ones that satisfy the equations of hmax.
pub fn values_are_the_greatest()
    ensures { (operators : List Operator) (s : Numbers)
        → AreGreatest operators s (fact_values operators s) }
{}
