//! How the states of entries were reached. The law is the contract of a function that does nothing.

ghost use Rattle.std.specs.Prelude.{◌≡◌, ℕ, List, Some};
ghost use Rattle.mp_machine.specs.AgentRecord.{AgentRecord};
ghost use Rattle.mp_messages.specs.declared.history.Event.{Event};
ghost use Rattle.mp_messages.specs.declared.message.State.{State};
ghost use Rattle.mp_task.specs.AgentTask.{AgentTask};
ghost use Rattle.mp_task.specs.Plan.{TaskStep, task_of};
ghost use Rattle.mp_team_states.specs.Further.{HaveSoundRecords};
ghost use Rattle.mp_team_states.specs.Paths.{AreReached, IsOver, IsPath, IsToldRightly};
ghost use Rattle.mp_team_states.specs.Sound.{AreStatesSound, IsSoundState};
ghost use Rattle.mp_team_states.specs.Walks.{WalksAlong};
ghost use Rattle.mp_trail.specs.Walk.{walk};
ghost use Rattle.mp_world.specs.IsRun.{IsRun};
ghost use Rattle.mp_world.specs.Steps.{IsStepOf};
ghost use Rattle.mp_world.specs.Team.{AreTeamTasks, IsTeam, Team};
ghost use Rattle.mp_world.specs.Values.{Values};
ghost use Rattle.mp_world.specs.World.{IsTeamWorld, World, agent_at, start_world};

/// In every world that a legal schedule leads to, each entry has a path, over the agents whose
/// states led to it. The path applies from the joint start, ends in the joint state of the entry
/// and costs what the entry does, and so it is with each state that was sent. An entry has one
/// path.
pub fn entries_are_reached()
    ensures start { (team : Team) → IsTeam team → AreReached team.tasks (start_world team) }
    ensures events { (value : Values) (tasks : List AgentTask) (w next : World) (event : Event)
        → AreTeamTasks tasks → IsTeamWorld tasks w → AreStatesSound tasks w
        → IsStepOf value w event next → AreReached tasks w → AreReached tasks next }
    ensures runs { (team : Team) (schedule : List Event) (w : World)
        → IsRun team schedule w → AreReached team.tasks w }
    ensures messages { (tasks : List AgentTask) (w : World) (sender : ℕ) (u : AgentTask)
        (m : State)
        → AreTeamTasks tasks → IsTeamWorld tasks w → AreStatesSound tasks w → AreReached tasks w
        → task_of tasks sender ≡ Some u → IsSoundState w u m → IsToldRightly tasks w sender m }
    ensures one { (w : World) (agent number : ℕ) (steps others : List TaskStep)
        → IsPath w agent number steps → IsPath w agent number others → steps ≡ others }
{}

/// A walk back from an entry along origins ends: an own action leads from an earlier entry, and
/// each message that it goes over is one of a number that is known.
pub fn walks_back_end()
    ensures over { (w : World) (agent number : ℕ) (steps : List TaskStep)
        → HaveSoundRecords w → IsPath w agent number steps
        → (messages : ℕ) × IsOver w agent number messages }
    ensures one { (w : World) (agent number m n : ℕ)
        → IsOver w agent number m → IsOver w agent number n → m ≡ n }
{}

/// The walk back within one agent, as it is defined, goes along the path to the entry where it
/// begins: it notes the agent's own actions at the end of the path, and ends at the initial state
/// or at the state of another agent where they begin.
pub fn walks_go_along_paths()
    ensures { (w : World) (agent number back : ℕ) (r : AgentRecord) (steps : List TaskStep)
        → HaveSoundRecords w → agent_at w agent ≡ Some r → IsPath w agent number steps
        → WalksAlong w agent back steps (walk r.search.kept number back) }
{}
