//! Laws of distances and of the values that are made of them. Each is the contract of a function that does nothing.

ghost use Rattle.std.specs.Prelude.{◌≡◌, ℕ, ◌<◌, ◌≤◌, ◌^◌, List, All, Contains, IfSome, length};
ghost use Rattle.mp_runs.specs.System.{IsPlanFrom, System, plan_cost};
ghost use Rattle.mp_sets.specs.Numbers.{Numbers};
ghost use Rattle.mp_task.specs.Strips.{Problem, strips_system};
ghost use Rattle.mp_pdb.specs.Distance.{AreClosed, IsLeastCost, distance};
ghost use Rattle.mp_pdb.specs.Pattern.{abstract_distance, abstract_state, abstraction, actions_of, pattern_of};

/// Where some states are all that some actions lead to from them, distances are the least costs of the plans that are made of these
/// actions.
pub fn distances_are_least_costs<S, A>()
    ensures { (system : System S A) (actions : List A) (states : List S)
        → AreClosed system actions states
        → (s : S) → Contains states s
        → IsLeastCost system actions s (distance system actions states s) }
{}

/// For any pattern the distance of the abstract state of a state is the least cost of a plan of the abstract problem from
/// there; all of whose plans are made of its actions. The pattern of a problem has at most 12 facts, and where no operator
/// costs more than 16,000,000 the distances for it are below 2^50.
pub fn abstract_distances_are_least_costs()
    ensures least { (pattern : List ℕ) (problem : Problem) (s : Numbers)
        → IsLeastCost (strips_system (abstraction pattern problem)) (actions_of problem)
        (abstract_state pattern s) (abstract_distance pattern problem (abstract_state pattern s)) }
    ensures actions { (pattern : List ℕ) (problem : Problem) (plan : List ℕ) (s : Numbers)
        → IsPlanFrom (strips_system (abstraction pattern problem)) s plan
        → All (Contains (actions_of problem)) plan }
    ensures few { (problem : Problem) → length (pattern_of problem) ≤ 12 }
    ensures small { (pattern : List ℕ) (problem : Problem) (s : Numbers) → length pattern ≤ 12
        → All (λ o. o.cost ≤ 16000000) problem.operators
        → IfSome (abstract_distance pattern problem s) (λ d. d < 2 ^ 50) }
{}

/// For any pattern each plan of a problem is one of the abstract problem from the abstract state, at the same cost.
pub fn plans_are_abstract_plans()
    ensures { (pattern : List ℕ) (problem : Problem) (plan : List ℕ) (s : Numbers)
        → IsPlanFrom (strips_system problem) s plan
        → IsPlanFrom (strips_system (abstraction pattern problem)) (abstract_state pattern s) plan
        × (plan_cost (strips_system (abstraction pattern problem)) plan
        ≡ plan_cost (strips_system problem) plan) }
{}
