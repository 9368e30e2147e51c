//! Laws of what a team's agents have found. Each is the contract of a function that does nothing.

ghost use Rattle.std.specs.Prelude.{◌≡◌, ℕ, List, Some, None, Contains};
ghost use Rattle.mp_task.specs.AgentTask.{AgentTask};
ghost use Rattle.mp_task.specs.Agreement.{AreTeamTasks, IsTeamMember};
ghost use Rattle.mp_task.specs.Plan.{
  IsJointState,
  SolvesFrom,
  TaskSolves,
  TaskStep,
  private_of,
  task_cost,
};
ghost use Rattle.mp_reach.specs.Explored.{HasWitness, LeavesNothingOut};
ghost use Rattle.mp_reach.specs.Found.{Found};
ghost use Rattle.mp_reach.specs.LeadsOn.{
  HasWayWithin,
  IsAny,
  IsGoal,
  IsRoot,
  IsTeamBound,
  IsTeamExplored,
  IsTeamExploredFor,
  IsTeamHopeless,
  Known,
  LeadsOn,
};
ghost use Rattle.mp_reach.specs.Ways.{Way};

use mp_task::Heuristic;

/// A way through the searches of the agents to a goal is a plan that solves from the joint state where it begins, and
/// costs what the way does.
pub fn ways_are_plans()
    ensures { (tasks : List AgentTask) (k last : Known) (cost : ℕ)
        → Way (LeadsOn tasks) k cost last → IsGoal tasks last
        → (plan : List TaskStep) × SolvesFrom tasks k.state plan
        × (task_cost tasks plan ≡ cost) }
{}

/// For each plan that solves, some agent's search has a way from its start to a goal that costs no more. A team without
/// agents has the empty plan and no search, so that some agent is named.
pub fn plans_have_ways()
    ensures { (tasks : List AgentTask) (t : AgentTask) (plan : List TaskStep)
        → IsTeamMember tasks t → TaskSolves tasks plan
        → HasWayWithin tasks (task_cost tasks plan) }
{}

/// Of each heuristic: what an agent's value of a joint state is, is at most what is still to be paid from there in any
/// agent's search, and where it has none, no agent's search leads on to a goal.
pub fn values_are_bounds_of_ways<H: Heuristic>()
    ensures bounds { (tasks : List AgentTask) (t : AgentTask) (k : Known) (h : ℕ)
        → AreTeamTasks tasks → Contains tasks t → IsJointState tasks k.state
        → H.value t k.state.publics (private_of k.state t.me) ≡ Some h
        → IsTeamBound tasks k h }
    ensures hopeless { (tasks : List AgentTask) (t : AgentTask) (k : Known)
        → AreTeamTasks tasks → Contains tasks t → IsJointState tasks k.state
        → H.value t k.state.publics (private_of k.state t.me) ≡ None
        → IsTeamHopeless tasks k }
{}

/// Whatever the agents of a team have found, as long as it is explored: for each plan that solves, an open entry's cost
/// and estimate together are at most the plan's cost, or those of a state under way are, or a goal entry's cost is.
pub fn plans_leave_a_witness<I>()
    ensures { (tasks : List AgentTask) (t : AgentTask) (found : Found I Known)
        (plan : List TaskStep)
        → IsTeamMember tasks t
        → IsTeamExplored tasks None found → TaskSolves tasks plan
        → HasWitness (IsGoal tasks) found (task_cost tasks plan) }
{}

/// Where what a team has found is explored even if each joint state counts as a goal, nothing is left out: what an
/// expanded entry's state leads to has an entry at its cost or less, or is under way at such a cost.
pub fn nothing_is_left_out<I>()
    ensures { (tasks : List AgentTask) (found : Found I Known)
        → IsTeamExploredFor tasks IsAny None found
        → LeavesNothingOut (LeadsOn tasks) (IsRoot tasks) found }
{}
