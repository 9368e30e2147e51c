//! Laws of what the agents of a team have found. Each is the contract of a function that does nothing.

ghost use Rattle.std.specs.Prelude.{◌≡◌, ℕ, List, length, Some, None, Contains};
ghost use Rattle.mp_messages.specs.declared.history.Event.{Event};
ghost use Rattle.mp_messages.specs.declared.history.Event.TheVariants.{Expand};
ghost use Rattle.mp_task.specs.AgentTask.{AgentTask};
ghost use Rattle.mp_task.specs.Plan.{TaskSolves, TaskStep, task_cost};
ghost use Rattle.mp_reach.specs.Explored.{HasWitness, LeavesNothingOut};
ghost use Rattle.mp_reach.specs.LeadsOn.{IsGoal, IsRoot, IsTeamExplored, LeadsOn};
ghost use Rattle.mp_team_states.specs.Estimates.{AreEstimatesBounds, AreGoalsFlagged};
ghost use Rattle.mp_team_states.specs.Expansions.{ExpandsOnce, ExpandsOne, IsExpandedAt, nothing_known};
ghost use Rattle.mp_team_states.specs.TeamFound.{found_of};
ghost use Rattle.mp_team_states.specs.Witness.{HasWitnessIn};
ghost use Rattle.mp_team_states.specs.Room.{AreSmall};
ghost use Rattle.mp_team_states.specs.Sound.{AreStatesSound};
ghost use Rattle.mp_world.specs.Events.{after_event};
ghost use Rattle.mp_world.specs.IsRun.{IsRun};
ghost use Rattle.mp_world.specs.Team.{AreTeamTasks, IsTeam, Team};
ghost use Rattle.mp_world.specs.Values.{Values};
ghost use Rattle.mp_world.specs.World.{IsTeamWorld, World, start_world};

use mp_task::Heuristic;

/// In every world that a legal schedule leads to, an entry's estimate is at most what is still to be paid from its
/// joint state, in whichever agent's search, and its goal flag says whether all goals of the team are true there.
pub fn estimates_and_flags_are_right<H: Heuristic>()
    ensures start { (team : Team)
        → team.value ≡ H.value → IsTeam team → AreEstimatesBounds team.tasks (start_world team) }
    ensures events { (tasks : List AgentTask) (w next : World) (event : Event)
        → AreTeamTasks tasks → IsTeamWorld tasks w → AreStatesSound tasks w → AreSmall w
        → after_event H.value w event ≡ Some next → AreEstimatesBounds tasks w
        → AreEstimatesBounds tasks next }
    ensures runs { (team : Team) (schedule : List Event) (w : World)
        → team.value ≡ H.value → IsRun team schedule w → AreEstimatesBounds team.tasks w }
    ensures flags { (team : Team) (schedule : List Event) (w : World)
        → team.value ≡ H.value → IsRun team schedule w → AreGoalsFlagged team.tasks w }
{}

/// In every world that a legal schedule leads to, what the agents have found is explored: it is at the start, and each
/// event keeps it, where the estimates are bounds in whichever agent's search.
pub fn teams_stay_explored<H: Heuristic>()
    ensures start { (team : Team)
        → team.value ≡ H.value → IsTeam team
        → IsTeamExplored team.tasks None (found_of (start_world team)) }
    ensures events { (tasks : List AgentTask) (w next : World) (event : Event)
        → AreTeamTasks tasks → IsTeamWorld tasks w → AreStatesSound tasks w → AreSmall w
        → AreEstimatesBounds tasks w → after_event H.value w event ≡ Some next
        → IsTeamExplored tasks None (found_of w) → IsTeamExplored tasks None (found_of next) }
    ensures runs { (team : Team) (schedule : List Event) (w : World)
        → team.value ≡ H.value → IsRun team schedule w
        → IsTeamExplored team.tasks None (found_of w) }
{}

/// In every world that a legal schedule leads to, for each plan that solves, an open entry's cost and estimate together
/// are at most the plan's cost, or those of a state under way are, or a goal entry's cost is. A team without agents has
/// the empty plan and no entry, so that some agent is named.
pub fn plans_leave_a_witness_in_runs<H: Heuristic>()
    ensures found { (team : Team) (t : AgentTask) (schedule : List Event) (w : World)
        (plan : List TaskStep)
        → team.value ≡ H.value → Contains team.tasks t → IsRun team schedule w
        → TaskSolves team.tasks plan
        → HasWitness (IsGoal team.tasks) (found_of w) (task_cost team.tasks plan) }
    ensures shown { (team : Team) (t : AgentTask) (schedule : List Event) (w : World)
        (plan : List TaskStep)
        → team.value ≡ H.value → Contains team.tasks t → IsRun team schedule w
        → TaskSolves team.tasks plan → HasWitnessIn w (task_cost team.tasks plan) }
{}

/// With a heuristic that knows nothing no state is left out, though it may lead to no goal. In every world that a legal
/// schedule leads to, the joint start has an entry at no cost at each agent, or is under way to it. Where an own action
/// applies in the state of an expanded entry, the state after it has an entry at its cost or less, or is under way at
/// such a cost: at the agent itself, and at each other agent that it concerns and to which it is visible.
pub fn no_state_is_left_out()
    ensures { (team : Team) (schedule : List Event) (w : World)
        → team.value ≡ nothing_known → IsRun team schedule w
        → LeavesNothingOut (LeadsOn team.tasks) (IsRoot team.tasks) (found_of w) }
{}

/// Expansions are not wasted. An agent expands an open entry with the least sum of cost and estimate, which is less
/// than the cost of each goal entry, and it expands a state again only at less cost, where what is expanded stays so.
/// With one agent and a heuristic that knows nothing no state is expanded twice.
pub fn expansions_are_not_wasted()
    ensures one { (value : Values) (tasks : List AgentTask) (w next : World) (agent : ℕ)
        → AreTeamTasks tasks → IsTeamWorld tasks w → AreStatesSound tasks w
        → after_event value w (Expand agent) ≡ Some next → ExpandsOne w agent next }
    ensures stay { (value : Values) (tasks : List AgentTask)
        (w next : World) (event : Event) (agent number : ℕ)
        → IsTeamWorld tasks w → after_event value w event ≡ Some next
        → IsExpandedAt w agent number → IsExpandedAt next agent number }
    ensures once { (team : Team) (schedule : List Event) (w : World)
        → team.value ≡ nothing_known → length team.tasks ≡ 1 → IsRun team schedule w
        → ExpandsOnce w }
{}
