//! Laws of ordered plans. Each is the contract of a function that does nothing.

ghost use Rattle.std.specs.Prelude.{◌≤◌, List};
ghost use Rattle.mp_task.specs.AgentTask.{AgentTask};
ghost use Rattle.mp_task.specs.Agreement.{AreNumbered};
ghost use Rattle.mp_task.specs.Plan.{JointState, TaskStep, SolvesFrom, TaskSolves, joint_start, task_cost};
ghost use Rattle.mp_order.specs.Ordered.{IsOrdered};

/// For each plan that solves there is an ordered one of no greater cost: from any joint state, and so from the start.
pub fn plans_can_be_put_in_order()
    ensures from_a_state { (tasks : List AgentTask) (s : JointState) (plan : List TaskStep)
        → AreNumbered tasks → SolvesFrom tasks s plan
        → (ordered : List TaskStep) × IsOrdered tasks s ordered
        × (task_cost tasks ordered ≤ task_cost tasks plan) }
    ensures from_the_start { (tasks : List AgentTask) (plan : List TaskStep)
        → AreNumbered tasks → TaskSolves tasks plan
        → (ordered : List TaskStep) × IsOrdered tasks (joint_start tasks) ordered
        × (task_cost tasks ordered ≤ task_cost tasks plan) }
{}

/// An ordered plan is a plan that solves.
pub fn ordered_plans_solve()
    ensures { (tasks : List AgentTask) (s : JointState) (plan : List TaskStep)
        → IsOrdered tasks s plan → SolvesFrom tasks s plan }
{}
