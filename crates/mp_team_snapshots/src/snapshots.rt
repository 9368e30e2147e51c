//! Laws of snapshots in a team that runs. Each is the contract of a function that does nothing.

ghost use Rattle.std.specs.Prelude.{◌≡◌, Contains, ℕ, false, List, length, map, Ok, Some};
ghost use Rattle.mp_machine.specs.AgentRecord.{AgentRecord, given_verdict};
ghost use Rattle.mp_machine.specs.Outgoing.{without_messages};
ghost use Rattle.mp_machine.specs.Taking.{ending_of, took_done};
ghost use Rattle.mp_messages.specs.declared.history.Event.{Event};
ghost use Rattle.mp_messages.specs.declared.message.EndKind.{EndKind};
ghost use Rattle.mp_messages.specs.declared.message.Findings.{Findings};
ghost use Rattle.mp_snapshot.specs.declared.verdict.Verdict.{Verdict};
ghost use Rattle.mp_snapshot.specs.Rules.{is_strange_marker, is_strange_report, own};
ghost use Rattle.mp_snapshot.specs.VerdictRule.{verdict_of};
ghost use Rattle.mp_task.specs.AgentTask.{AgentTask};
ghost use Rattle.mp_task.specs.Agreement.{IsTeamMember};
ghost use Rattle.mp_task.specs.Limits.{IsWithinLimits};
ghost use Rattle.mp_team_snapshots.specs.Messages.{ends, markers, reports};
ghost use Rattle.mp_team_snapshots.specs.Snapshots.{
  AreEndsOfFirst,
  AreSnapshotsSound,
  AreTwo,
  IsSnapshotOver,
};
ghost use Rattle.mp_team_snapshots.specs.Team.{IsTeamOf, SendsFitting};
ghost use Rattle.mp_world.specs.Events.{run};
ghost use Rattle.mp_world.specs.Steps.{IsStepOf};
ghost use Rattle.mp_world.specs.Team.{Team};
ghost use Rattle.mp_world.specs.Values.{Values};
ghost use Rattle.mp_world.specs.World.{IsTeamWorld, World, agent_at, start_world};

/// Snapshots are sound in the world at the start, and each event keeps them so, where the markers
/// and the reports that it sends are such as messages have room for.
pub fn snapshots_are_sound()
    ensures start { (team : Team) (publics : ℕ)
        → IsTeamOf publics team.tasks → AreSnapshotsSound publics (start_world team) }
    ensures step { (value : Values) (publics : ℕ)
        (tasks : List AgentTask) (w : World) (event : Event) (next : World)
        → IsTeamOf publics tasks → IsTeamWorld tasks w
        → (is : IsStepOf value w event next) → SendsFitting is.step
        → AreSnapshotsSound publics w → AreSnapshotsSound publics next }
{}

/// Tasks that agree, of which one is within the limits of the program, are those of a team of which
/// these laws speak.
pub fn tasks_that_agree_are_of_a_team()
    ensures { (tasks : List AgentTask) (t : AgentTask)
        → IsTeamMember tasks t → IsWithinLimits t → IsTeamOf t.publics tasks }
{}

/// In every world that a legal schedule leads to, snapshots are sound, and no end is under way from
/// any agent but agent 1.
pub fn snapshots_are_sound_in_all_runs()
    ensures sound { (team : Team) (publics : ℕ) (schedule : List Event) (w : World)
        → IsTeamOf publics team.tasks → run team schedule ≡ Some w → AreSnapshotsSound publics w }
    ensures ends { (team : Team) (publics : ℕ) (schedule : List Event) (w : World)
        → IsTeamOf publics team.tasks → run team schedule ≡ Some w → AreEndsOfFirst publics w }
{}

/// Where snapshots are sound, no marker that is under way is strange to the agent that it goes to,
/// and no report that is under way to agent 1 is strange to agent 1.
pub fn messages_of_snapshots_are_not_strange()
    ensures marker { (publics : ℕ) (tasks : List AgentTask) (w : World) (a b : AgentRecord)
        (number : ℕ)
        → IsTeamOf publics tasks → IsTeamWorld tasks w → AreSnapshotsSound publics w
        → AreTwo w a b → Contains (markers publics w a.task.me b.task.me) number
        → is_strange_marker b.snapshot a.task.me number ≡ false }
    ensures report { (publics : ℕ) (tasks : List AgentTask) (w : World)
        (first r : AgentRecord) (found : Findings)
        → IsTeamOf publics tasks → IsTeamWorld tasks w → AreSnapshotsSound publics w
        → first.task.me ≡ 1 → AreTwo w first r → Contains (reports publics w r.task.me 1) found
        → is_strange_report first.snapshot r.task.me found ≡ false }
{}

/// Where snapshots are sound and agent 1 has a verdict, the snapshot is over: all agents have begun
/// it and await no marker, nothing of it is under way, and agent 1 has what each agent found. So
/// the verdict is that of the rule on what all agents found.
pub fn verdicts_are_on_snapshots_that_are_over()
    ensures over { (publics : ℕ) (tasks : List AgentTask) (w : World) (first : AgentRecord)
        (verdict : Verdict)
        → IsTeamOf publics tasks → IsTeamWorld tasks w → AreSnapshotsSound publics w
        → agent_at w 1 ≡ Some first → given_verdict first ≡ Some verdict
        → IsSnapshotOver publics w first }
    ensures rule { (publics : ℕ) (tasks : List AgentTask) (w : World) (first : AgentRecord)
        (verdict : Verdict)
        → IsTeamOf publics tasks → IsTeamWorld tasks w → AreSnapshotsSound publics w
        → agent_at w 1 ≡ Some first → given_verdict first ≡ Some verdict
        → verdict_of (map (λ r. own r.snapshot) w.agents) ≡ verdict }
{}

/// No agent but agent 1 ever has an end under way, where markers and reports are such as messages
/// have room for: so it is at the start, and each event keeps it so. An end that is under way comes
/// from agent 1 then, from which no agent takes it as a bad one.
pub fn agent_1_alone_ends_the_search()
    ensures start { (team : Team) (publics : ℕ)
        → IsTeamOf publics team.tasks → AreEndsOfFirst publics (start_world team) }
    ensures step { (value : Values) (publics : ℕ)
        (tasks : List AgentTask) (w : World) (event : Event) (next : World)
        → IsTeamOf publics tasks → IsTeamWorld tasks w
        → (is : IsStepOf value w event next) → SendsFitting is.step
        → AreEndsOfFirst publics w → AreEndsOfFirst publics next }
    ensures taken { (publics : ℕ) (w : World) (a b : AgentRecord) (kind : EndKind)
        → AreEndsOfFirst publics w → AreTwo w a b
        → Contains (ends publics w a.task.me b.task.me) kind
        → took_done b a.task.me kind
        ≡ Ok (without_messages (record b { ending = ending_of kind })) }
{}
