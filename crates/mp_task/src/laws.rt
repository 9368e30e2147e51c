//! Laws of a team's plans as one agent sees them. Each is the contract of a function that does nothing, and holds for
//! all tasks that agree and keep the limits.

ghost use Rattle.std.specs.Prelude.{◌≡◌, ℕ, ◌<◌, ◌≤◌, ◌^◌, List, Some, All, Contains, IsSome, IfSome};
ghost use Rattle.std.specs.FinSet as set;
ghost use Rattle.mp_runs.specs.Simulation.{StandsForAll};
ghost use Rattle.mp_runs.specs.System.{IsPlanFrom, plan_cost};
ghost use Rattle.mp_task.specs.AgentTask.{AgentTask};
ghost use Rattle.mp_task.specs.Agreement.{AreTeamTasks, IsTeamMember};
ghost use Rattle.mp_task.specs.Limits.{IsWithinLimits};
ghost use Rattle.mp_task.specs.Plan.{
  JointState,
  IsJointState,
  TaskStep,
  SolvesFrom,
  after_step,
  joint_start,
  private_of,
  task_cost,
};
ghost use Rattle.mp_task.specs.Projected.{projected_state};
ghost use Rattle.mp_task.specs.Seen.{seen_system, seen_state, IsSeenAs};

use crate::heuristic::Heuristic;

/// The joint start is a joint state of the team, and steps lead to joint states. An agent sees of the joint start its
/// own start.
pub fn steps_lead_to_joint_states()
    ensures start { (tasks : List AgentTask) → IsJointState tasks (joint_start tasks) }
    ensures steps { (tasks : List AgentTask) (s reached : JointState) (step : TaskStep)
        → IsJointState tasks s → after_step tasks s step ≡ Some reached
        → IsJointState tasks reached }
    ensures seen { (tasks : List AgentTask) (t : AgentTask) → IsTeamMember tasks t
        → seen_state t (joint_start tasks)
        ≡ projected_state t (set.from_list t.start_pub) (set.from_list t.start_priv) }
{}

/// A plan that solves from a joint state is, seen by one agent, a plan of its projected problem from the state that it
/// sees, at no greater cost: its own actions, and of the other agents' public actions the public parts.
pub fn plans_are_seen_as_plans()
    ensures { (tasks : List AgentTask) (t : AgentTask) (s : JointState) (plan : List TaskStep)
        → AreTeamTasks tasks → Contains tasks t → IsJointState tasks s
        → SolvesFrom tasks s plan
        → (seen : List ℕ) × StandsForAll (IsSeenAs tasks t) plan seen
        × IsPlanFrom (seen_system t) (seen_state t s) seen
        × (plan_cost (seen_system t) seen ≤ task_cost tasks plan) }
{}

/// Of each heuristic: its value of the state that an agent sees of a joint state is below 2^50, is not none where a
/// plan of the team solves from there, and is at most the cost of each such plan.
pub fn values_are_bounds_for_the_team<H: Heuristic>()
    ensures small { (tasks : List AgentTask) (t : AgentTask) (s : JointState)
        → All IsWithinLimits tasks → Contains tasks t
        → IfSome (H.value t s.publics (private_of s t.me)) (λ h. h < 2 ^ 50) }
    ensures alive { (tasks : List AgentTask) (t : AgentTask) (s : JointState) (plan : List TaskStep)
        → AreTeamTasks tasks → Contains tasks t → IsJointState tasks s
        → SolvesFrom tasks s plan → IsSome (H.value t s.publics (private_of s t.me)) }
    ensures admissible { (tasks : List AgentTask) (t : AgentTask) (s : JointState)
        (plan : List TaskStep)
        → AreTeamTasks tasks → Contains tasks t → IsJointState tasks s
        → SolvesFrom tasks s plan
        → IfSome (H.value t s.publics (private_of s t.me)) (λ h. h ≤ task_cost tasks plan) }
{}
