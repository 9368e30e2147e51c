//! A worked team and its plans. Each law is the contract of a function that does nothing.

ghost use Rattle.std.specs.Prelude.{◌≡◌, [], ◌∷◌};
ghost use Rattle.mp_task.specs.Agreement.{AreTeamTasks};
ghost use Rattle.mp_task.specs.Plan.{SolvesFrom, TaskSolves, joint_start, task_cost};
ghost use Rattle.mp_order.specs.Examples.{cook_and_waiter, unordered, ordered, meal_out, resting, collecting, washing};
ghost use Rattle.mp_order.specs.Ordered.{IsOrdered};

/// A plan of two agents that is out of order, and that plan in order, which costs one less: what the cook does once
/// more after its private goals hold is not in it.
pub fn worked_plan_is_put_in_order()
    ensures team { AreTeamTasks cook_and_waiter }
    ensures solves { TaskSolves cook_and_waiter unordered }
    ensures costs_7 { task_cost cook_and_waiter unordered ≡ 7 }
    ensures in_order { IsOrdered cook_and_waiter (joint_start cook_and_waiter) ordered }
    ensures costs_6 { task_cost cook_and_waiter ordered ≡ 6 }
{}

/// A plan is out of order where a private action of one agent stands before a block of another; where a closing group
/// stands before that of a lower agent; and where one goes on after its agent's private goals hold. Each of these
/// plans solves.
pub fn worked_plans_are_out_of_order()
    ensures before_a_block { IsOrdered cook_and_waiter (joint_start cook_and_waiter) unordered → ⊥ }
    ensures closing { IsOrdered cook_and_waiter meal_out (resting ∷ collecting ∷ []) }
    ensures falling_solves { SolvesFrom cook_and_waiter meal_out (collecting ∷ resting ∷ []) }
    ensures falling { IsOrdered cook_and_waiter meal_out (collecting ∷ resting ∷ []) → ⊥ }
    ensures longer_solves { SolvesFrom cook_and_waiter meal_out
        (resting ∷ washing ∷ collecting ∷ []) }
    ensures longer { IsOrdered cook_and_waiter meal_out (resting ∷ washing ∷ collecting ∷ []) → ⊥ }
{}
