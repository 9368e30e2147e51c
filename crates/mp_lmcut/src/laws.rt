//! Laws of the heuristic. Each is the contract of a function that does nothing.

ghost use Rattle.std.specs.Prelude.{◌≡◌, ◌+◌, ◌≤◌, ℕ, List, length};
ghost use Rattle.mp_runs.specs.System.{IsPlanFrom, plan_cost};
ghost use Rattle.mp_sets.specs.Numbers.{Numbers};
ghost use Rattle.mp_task.specs.Strips.{Operator, Problem, strips_system};
ghost use Rattle.mp_lmcut.specs.Cut.{cuts};

/// The cuts of any number of rounds cost together at most as much as each plan, so fewer rounds give a bound too.
pub fn cuts_are_paid()
    ensures { (rounds : ℕ) (problem : Problem) (s : Numbers) (plan : List ℕ)
        → IsPlanFrom (strips_system problem) s plan
        → cuts rounds problem.operators problem.goals s ≤ plan_cost (strips_system problem) plan }
{}

/// A round for each operator is enough: more change nothing.
pub fn rounds_end()
    ensures { (operators : List Operator) (goals : List ℕ) (s : Numbers) (more : ℕ)
        → cuts (length operators + more) operators goals s ≡ cuts (length operators) operators goals s }
{}
