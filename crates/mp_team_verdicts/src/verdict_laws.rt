//! Verdicts and answers are right. Each law is the contract of a function that does nothing.

ghost use Rattle.std.specs.Prelude.{◌≡◌, ◌<◌, ◌+◌, ◌^◌, ℕ, true, length, List, Some, Contains};
ghost use Rattle.mp_machine.specs.AgentRecord.{AgentRecord, given_verdict};
ghost use Rattle.mp_messages.specs.declared.history.Event.{Event};
ghost use Rattle.mp_snapshot.specs.declared.verdict.Verdict.{Verdict};
ghost use Rattle.mp_snapshot.specs.declared.verdict.Verdict.TheVariants.{Spent};
ghost use Rattle.mp_task.specs.AgentTask.{AgentTask};
ghost use Rattle.mp_team_states.specs.Expansions.{nothing_known};
ghost use Rattle.mp_team_verdicts.specs.Right.{IsRightAnswer, IsRightVerdict};
ghost use Rattle.mp_world.specs.Answers.{answer_of};
ghost use Rattle.mp_world.specs.IsRun.{IsRun};
ghost use Rattle.mp_world.specs.RoundRobin.{is_over};
ghost use Rattle.mp_world.specs.Team.{Team};
ghost use Rattle.mp_world.specs.World.{World, agent_at};

use mp_task::Heuristic;

/// After each legal schedule agent 1's verdict is right. A proved cost is that of a plan which
/// solves, and no plan costs less. Where there is said to be no plan, none solves. Where the search
/// is spent, an agent had expanded as many entries as it may in the world after the cut at agent 1's
/// last snapshot, while an open entry of its own was the least of all that was left to do, and no
/// goal entry cost as little; it has expanded as many still, and no plan costs less than that entry.
pub fn verdicts_are_right<H: Heuristic>()
    ensures { (team : Team) (schedule : List Event) (w : World) (first : AgentRecord)
        (verdict : Verdict)
        → team.value ≡ H.value → IsRun team schedule w → agent_at w 1 ≡ Some first
        → given_verdict first ≡ Some verdict
        → IsRightVerdict team schedule w first.snapshot.number verdict }
{}

/// Once all agents have ended after a legal schedule, the team answers, and its answer is right. A
/// solution is a plan whose steps are the agents' shares, and no plan costs less. Where the tasks are
/// said to be unsolvable, no plan solves. Where nothing is decided, an agent was at its limit as for
/// verdicts. A team without agents answers nothing, so that some agent is named.
pub fn answers_are_right<H: Heuristic>()
    ensures { (team : Team) (t : AgentTask) (schedule : List Event) (w : World)
        → team.value ≡ H.value → Contains team.tasks t → IsRun team schedule w → is_over w ≡ true
        → IsRightAnswer team schedule w (answer_of w) }
{}

/// With one agent and a heuristic that knows nothing the search is spent only where the agent may expand
/// fewer entries than there are sets of its facts: it expands no state twice.
pub fn one_agent_is_spent_early()
    ensures { (team : Team) (schedule : List Event) (w : World) (first : AgentRecord) (agent : ℕ)
        → team.value ≡ nothing_known → length team.tasks ≡ 1 → IsRun team schedule w
        → agent_at w 1 ≡ Some first → given_verdict first ≡ Some (Spent agent)
        → team.limit < 2 ^ (first.task.publics + first.task.privates) }
{}
