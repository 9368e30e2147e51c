//! How a plan is walked back over the agents. Each law is the contract of a function that does
//! nothing.

ghost use Rattle.std.specs.Prelude.{◌≡◌, ◌≤◌, ◌<◌, ◌^◌, ℕ, List, Some, Contains};
ghost use Rattle.mp_machine.specs.AgentRecord.{AgentRecord, given_verdict};
ghost use Rattle.mp_machine.specs.Verdicts.{is_proved};
ghost use Rattle.mp_messages.specs.declared.history.Event.{Event};
ghost use Rattle.mp_task.specs.AgentTask.{AgentTask};
ghost use Rattle.mp_team_states.specs.Room.{expanded_by_all};
ghost use Rattle.mp_team_verdicts.specs.Ending.{AreSame, IsAt, Stage, has_plan};
ghost use Rattle.mp_team_verdicts.specs.Few.{ArePathsShort, KeepFew, kept_by_all};
ghost use Rattle.mp_world.specs.IsRun.{IsRun};
ghost use Rattle.mp_world.specs.Team.{Team};
ghost use Rattle.mp_world.specs.World.{World, agent_at};

/// In every world that a legal schedule leads to, each agent keeps fewer than 2^46 entries and all
/// agents together fewer than 2^50, and the path to each entry has at most as many steps as all
/// agents have expanded entries, which are at most 160,000,000.
pub fn entries_stay_few()
    ensures each { (team : Team) (schedule : List Event) (w : World)
        → IsRun team schedule w → KeepFew w }
    ensures all { (team : Team) (schedule : List Event) (w : World)
        → IsRun team schedule w → kept_by_all w < 2 ^ 50 }
    ensures paths { (team : Team) (schedule : List Event) (w : World)
        → IsRun team schedule w → ArePathsShort w × (expanded_by_all w ≤ 160000000) }
{}

/// In every world that a legal schedule leads to, the end of the search has come to a stage: what
/// agent 1's verdict is, what each agent has noted of a plan and how it has ended, and which
/// messages of the end are under way between each two agents. There is a plan at that stage exactly
/// where agent 1's verdict is that one is proved: it is the path to a goal entry that the agent of
/// the verdict noted, at the cost of the verdict. A world is at one stage, but for the agent that
/// told the plan's length.
pub fn walks_are_sound()
    ensures stages { (team : Team) (schedule : List Event) (w : World) (t : AgentTask)
        → Contains team.tasks t → IsRun team schedule w → (stage : Stage) × IsAt t.publics w stage }
    ensures proved { (publics : ℕ) (w : World) (stage : Stage) (first : AgentRecord)
        → IsAt publics w stage → agent_at w 1 ≡ Some first
        → has_plan stage ≡ is_proved (given_verdict first) }
    ensures one { (publics : ℕ) (w : World) (a b : Stage)
        → IsAt publics w a → IsAt publics w b → AreSame a b }
{}
