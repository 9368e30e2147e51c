//! Laws of runs, plans and simulations. Each is the contract of a function that does nothing.

ghost use Rattle.std.specs.Prelude.{◌≡◌, ℕ, ◌+◌, ◌≤◌, ◌++◌, [], ◌∷◌, List, Bool, Option, Some, IsTrue, option_and_then};
ghost use Rattle.std.specs.List.{flat_map};
ghost use Rattle.mp_runs.specs.Run.{run, IsLegal};
ghost use Rattle.mp_runs.specs.Simulation.{Simulates};
ghost use Rattle.mp_runs.specs.System.{System, IsPlanFrom, plan_cost};

/// The run of an appended list is the run of the second one from where the first one ends, and each front of a legal
/// list is legal.
pub fn runs_of_appended_lists<S, E>()
    ensures appended { (step : S → E → Option S) (s : S) (before events : List E)
        → run step s (before ++ events)
        ≡ option_and_then (λ t. run step t events) (run step s before) }
    ensures front { (step : S → E → Option S) (s : S) (before events : List E)
        → IsLegal step s (before ++ events) → IsLegal step s before }
{}

/// What the first state has and each step keeps, the state after a run has; and so it is with what holds of the events
/// so far and the state that they lead to.
pub fn runs_have_what_steps_keep<S, E>()
    ensures of_states { (step : S → E → Option S) (holds : S → Bool)
        → ((s t : S) (e : E) → IsTrue (holds s) → step s e ≡ Some t → IsTrue (holds t))
        → (events : List E) (s t : S) → IsTrue (holds s) → run step s events ≡ Some t
        → IsTrue (holds t) }
    ensures of_histories { (step : S → E → Option S) (holds : List E → S → Bool)
        → ((past : List E) (s t : S) (e : E) → IsTrue (holds past s) → step s e ≡ Some t
        → IsTrue (holds (past ++ e ∷ []) t))
        → (events : List E) (s t : S) → IsTrue (holds [] s) → run step s events ≡ Some t
        → IsTrue (holds events t) }
{}

/// A plan that follows another costs what both do.
pub fn costs_of_appended_plans<S, A>()
    ensures { (system : System S A) (before plan : List A)
        → plan_cost system (before ++ plan) ≡ plan_cost system before + plan_cost system plan }
{}

/// A system that simulates another has a plan for each of the other's plans, from each state that represents the one
/// from which that one starts: the actions that stand for the plan's actions, one after another. It costs as much
/// where each action's do, and at most as much where each action's do.
pub fn simulations_keep_plans<S, A, T, B>()
    ensures equal { (second : System T B) (first : System S A)
        (represents : T → S → Bool) (images : A → List B)
        → Simulates second first
        (λ t s. IsTrue (represents t s)) (λ a bs. bs ≡ images a) (λ c d. c ≡ d)
        → (plan : List A) (t : T) (s : S) → IsTrue (represents t s) → IsPlanFrom first s plan
        → IsPlanFrom second t (flat_map images plan)
        × (plan_cost second (flat_map images plan) ≡ plan_cost first plan) }
    ensures at_most { (second : System T B) (first : System S A)
        (represents : T → S → Bool) (images : A → List B)
        → Simulates second first
        (λ t s. IsTrue (represents t s)) (λ a bs. bs ≡ images a) (λ c d. c ≤ d)
        → (plan : List A) (t : T) (s : S) → IsTrue (represents t s) → IsPlanFrom first s plan
        → IsPlanFrom second t (flat_map images plan)
        × (plan_cost second (flat_map images plan) ≤ plan_cost first plan) }
{}
