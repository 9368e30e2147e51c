//! How large costs and estimates are. Each law is the contract of a function that does nothing.

ghost use Rattle.std.specs.Prelude.{◌≡◌, ◌≤◌, ◌<◌, ◌+◌, ◌*◌, ◌^◌, ℕ, List, Some, All};
ghost use Rattle.mp_messages.specs.declared.history.Event.{Event};
ghost use Rattle.mp_messages.specs.declared.message.State.{State};
ghost use Rattle.mp_search.specs.AgentState.{AgentState};
ghost use Rattle.mp_store.specs.declared.entry.Entry.{Entry};
ghost use Rattle.mp_task.specs.AgentTask.{AgentTask};
ghost use Rattle.mp_task.specs.Limits.{IsWithinLimits};
ghost use Rattle.mp_task.specs.Plan.{task_of};
ghost use Rattle.mp_team_states.specs.Paths.{IsEntryAt};
ghost use Rattle.mp_team_states.specs.Room.{AreSmall, HasSmallValues, expanded_by_all};
ghost use Rattle.mp_team_states.specs.Sound.{AreStatesSound, IsSoundState};
ghost use Rattle.mp_world.specs.IsRun.{IsRun};
ghost use Rattle.mp_world.specs.Steps.{IsStepOf};
ghost use Rattle.mp_world.specs.Team.{AreTeamTasks, IsTeam, Team};
ghost use Rattle.mp_world.specs.Values.{Values};
ghost use Rattle.mp_world.specs.World.{IsTeamWorld, World, start_world};

use mp_task::Heuristic;

/// The values of each heuristic are small for each task of a team.
pub fn values_are_small<H: Heuristic>()
    ensures { (tasks : List AgentTask) → All IsWithinLimits tasks → HasSmallValues H.value tasks }
{}

/// In every world that a legal schedule leads to, each entry costs at most 16,000,000 times the
/// number of all expansions so far, and its estimate is below 2^50; so it is with each state that
/// was sent. All agents together expand at most 160,000,000 entries, so that the cost of an entry,
/// that of one action more and an estimate are at most 2^53 together.
pub fn costs_stay_small()
    ensures start { (team : Team)
        → IsTeam team → HasSmallValues team.value team.tasks → AreSmall (start_world team) }
    ensures events { (value : Values) (tasks : List AgentTask) (w next : World) (event : Event)
        → AreTeamTasks tasks → HasSmallValues value tasks → IsTeamWorld tasks w
        → AreStatesSound tasks w → IsStepOf value w event next → AreSmall w → AreSmall next }
    ensures runs { (team : Team) (schedule : List Event) (w : World)
        → HasSmallValues team.value team.tasks → IsRun team schedule w → AreSmall w }
    ensures messages { (tasks : List AgentTask) (w : World) (sender : ℕ) (u : AgentTask)
        (m : State)
        → AreTeamTasks tasks → IsTeamWorld tasks w → AreStatesSound tasks w → AreSmall w
        → task_of tasks sender ≡ Some u → IsSoundState w u m
        → (m.g ≤ 16000000 * expanded_by_all w) × (m.h < 2 ^ 50) }
    ensures counts { (tasks : List AgentTask) (w : World)
        → AreTeamTasks tasks → IsTeamWorld tasks w → AreStatesSound tasks w
        → expanded_by_all w ≤ 160000000 }
    ensures room { (tasks : List AgentTask) (w : World) (agent number : ℕ) (e : Entry AgentState)
        → AreTeamTasks tasks → IsTeamWorld tasks w → AreStatesSound tasks w → AreSmall w
        → IsEntryAt w agent number e → e.g + 16000000 + 2 ^ 50 ≤ 2 ^ 53 }
{}
