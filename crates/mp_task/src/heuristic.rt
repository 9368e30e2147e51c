//! What a heuristic promises, and the one that knows nothing.

ghost use Rattle.std.specs.Prelude.{◌≡◌, ℕ, ◌<◌, ◌≤◌, ◌^◌, List, Option, Some, None, IfOk, IfSome};
ghost use Rattle.mp_sets.specs.Numbers.{Numbers};
ghost use Rattle.mp_task.specs.AgentTask.{AgentTask};
ghost use Rattle.mp_task.specs.Limits.{IsWithinLimits};
ghost use Rattle.mp_runs.specs.System.{IsPlanFrom, plan_cost};
ghost use Rattle.mp_task.specs.Projected.{projected_state};
ghost use Rattle.mp_task.specs.Seen.{seen_system};
ghost use Rattle.mp_task.specs.Values.{Values};
ghost use Rattle.mp_task.specs.Heuristic.{SizesFit};
ghost use Rattle.std.proofs.Common.{lit<, sym, zero-le};
ghost use Rattle.std.proofs.lemmas.Option.{none-some};

use crate::task::Task;
use mp_list::OutOfMemory;
use mp_sets::Bits;
use std::alloc::Global;

/// A bound from below on what is still to be paid, for a state that an agent knows: the public facts and its
/// own private facts that are true. It goes by the agent's projected problem: its own actions, and the public
/// parts of the other agents' public actions.
pub trait Heuristic: Sized + Drop {
    /// Whether it was made of a task, or of one that it can't tell from that.
    ghost is_for: { Self → AgentTask → Type 0 };

    /// Its value, by its definition, for a task, a set of public facts and one of private facts.
    ghost value: { Values };

    /// A heuristic for a task. Refuses only for want of memory.
    fn make(alloc: Global, task: &Task) -> Result<Self, OutOfMemory>
        ensures { IfOk result (λ made. is_for made task.now) };

    /// The value of a state of the task that it was made of, whose sizes the sets have: none only where the
    /// projected problem has no plan from there. Refuses only for want of memory.
    fn value(&mut self, publics: &Bits, privates: &Bits) -> Result<Option<u64>, OutOfMemory>
        requires { SizesFit (is_for self.old) publics.now.size privates.now.size }
        ensures value { IfOk result (λ found. (task : AgentTask) → is_for self.old task
            → found ≡ value task publics.now.members privates.now.members) }
        ensures kept { (task : AgentTask) → is_for self.old task → is_for self.new task };

    /// A value is below 2^50.
    ghost small: { (task : AgentTask) (publics privates : Numbers) → IsWithinLimits task
        → IfSome (value task publics privates) (λ h. h < 2 ^ 50) };

    /// It is none only where the projected problem has no plan from there.
    ghost dead: { (task : AgentTask) (publics privates : Numbers) → IsWithinLimits task
        → value task publics privates ≡ None
        → (plan : List ℕ)
        → ¬ IsPlanFrom (seen_system task) (projected_state task publics privates) plan };

    /// Otherwise it is at most the cost of each plan of the projected problem from there.
    ghost admissible: { (task : AgentTask) (publics privates : Numbers) → IsWithinLimits task
        → (plan : List ℕ)
        → IsPlanFrom (seen_system task) (projected_state task publics privates) plan
        → IfSome (value task publics privates) (λ h. h ≤ plan_cost (seen_system task) plan) };
}

/// The heuristic that knows nothing: its value is always 0.
#[derive(Clone, Copy, Debug)]
pub struct Blind;

impl Heuristic for Blind {
    ghost is_for = { λ _ _. Unit {0} };

    ghost value = { λ _ _ _. Some 0 };

    fn make(_alloc: Global, _task: &Task) -> Result<Blind, OutOfMemory> {
        Ok(Blind)
    }

    fn value(&mut self, _publics: &Bits, _privates: &Bits) -> Result<Option<u64>, OutOfMemory> {
        Ok(Some(0))
    }

    ghost small = { λ _ _ _ _. lit< tt };

    ghost dead = { λ _ _ _ _ e _ _. none-some _ (sym e) };

    ghost admissible = { λ _ _ _ _ _ _. zero-le };
}
