//! What comes of a search that is over. The law is the contract of a function that does nothing.

ghost use Rattle.std.specs.Prelude.{◌≡◌, ℕ, true, List, Some};
ghost use Rattle.mp_machine.specs.AgentRecord.{AgentRecord, given_verdict};
ghost use Rattle.mp_messages.specs.declared.history.Event.{Event};
ghost use Rattle.mp_snapshot.specs.declared.verdict.Verdict.TheVariants.{Proved};
ghost use Rattle.mp_team_verdicts.specs.Shares.{IsOutcome};
ghost use Rattle.mp_world.specs.IsRun.{IsRun};
ghost use Rattle.mp_world.specs.RoundRobin.{is_over};
ghost use Rattle.mp_world.specs.Team.{Team};
ghost use Rattle.mp_world.specs.World.{World, agent_at};

/// Once all agents have ended after a legal schedule and agent 1's verdict is that a plan is proved,
/// there is a plan that solves the tasks of the team at the verdict's cost. Each agent's share is
/// its own steps of the plan at their times, each step is one of an agent's, and the cost and the
/// plan's length are what agent 1 answers.
pub fn shares_are_the_plan()
    ensures { (team : Team) (schedule : List Event) (w : World) (first : AgentRecord)
        (agent cost : ℕ)
        → IsRun team schedule w → is_over w ≡ true → agent_at w 1 ≡ Some first
        → given_verdict first ≡ Some (Proved agent cost) → IsOutcome team.tasks w cost }
{}
