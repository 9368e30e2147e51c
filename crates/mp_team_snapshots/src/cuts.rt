//! Laws of the cut of a schedule at a snapshot, and of verdicts. Each is the contract of a function
//! that does nothing.

ghost use Rattle.std.specs.Prelude.{◌≡◌, ◌≤◌, ℕ, List, map, Some};
ghost use Rattle.mp_machine.specs.AgentRecord.{AgentRecord, given_verdict};
ghost use Rattle.mp_messages.specs.declared.history.Event.{Event};
ghost use Rattle.mp_messages.specs.declared.message.Findings.{Findings};
ghost use Rattle.mp_snapshot.specs.declared.verdict.Verdict.{Verdict};
ghost use Rattle.mp_snapshot.specs.VerdictRule.{verdict_of};
ghost use Rattle.mp_team_snapshots.specs.CutWorlds.{HasCut};
ghost use Rattle.mp_team_snapshots.specs.Found.{numbered};
ghost use Rattle.mp_team_snapshots.specs.Verdicts.{HasVerdictWorld};
ghost use Rattle.mp_world.specs.Events.{run};
ghost use Rattle.mp_world.specs.Team.{AreTeamTasks, Team};
ghost use Rattle.mp_world.specs.World.{World, agent_at};

/// The cut of each legal schedule at a snapshot is legal. An agent that has not recorded that
/// snapshot is the same after the schedule and after the cut; another one was, when it recorded,
/// as it is after the cut, and what it kept and sent since has grown. As long as agent 1 has begun
/// no later snapshot, each message under way after the cut is still under way, or was taken and
/// counted.
pub fn cuts_are_worlds()
    ensures { (team : Team) (k : ℕ) (schedule : List Event) (w : World)
        → AreTeamTasks team.tasks → 1 ≤ k → run team schedule ≡ Some w → HasCut team k schedule w }
{}

/// Where agent 1 has a verdict on a snapshot, it is that of the rule on the world after the cut at
/// that snapshot: what each agent found is what it has found there, with the states under way to
/// it. An agent that is named for a proved plan has a goal entry of its cost there, and that is the
/// one that it noted.
pub fn verdicts_are_of_one_world()
    ensures { (team : Team) (schedule : List Event) (w : World) (first : AgentRecord)
        (verdict : Verdict)
        → AreTeamTasks team.tasks → run team schedule ≡ Some w → agent_at w 1 ≡ Some first
        → given_verdict first ≡ Some verdict
        → HasVerdictWorld team first.snapshot.number schedule w verdict }
{}

/// The rule of verdicts does not look at the numbers of snapshots.
pub fn verdicts_have_no_number()
    ensures { (number : ℕ) (found : List Findings)
        → verdict_of (map (numbered number) found) ≡ verdict_of found }
{}
