//! A team that is not over goes on, and its search is decided after few rounds. Each law is the contract of a function that
//! does nothing.

ghost use Rattle.std.specs.Prelude.{◌≡◌, ◌≢◌, [], ◌≤◌, ◌<◌, ◌+◌, ◌^◌, ℕ, true, false, length, List, Some, Contains};
ghost use Rattle.mp_machine.specs.AgentRecord.{AgentRecord};
ghost use Rattle.mp_messages.specs.declared.history.Event.{Event};
ghost use Rattle.mp_task.specs.AgentTask.{AgentTask};
ghost use Rattle.mp_team_verdicts.specs.Going.{AreGoingRounds};
ghost use Rattle.mp_team_verdicts.specs.Quiet.{AreQuietRounds, AreSearchRounds};
ghost use Rattle.mp_world.specs.Events.{is_legal};
ghost use Rattle.mp_world.specs.IsRun.{IsRun};
ghost use Rattle.mp_world.specs.RoundRobin.{Round, is_over};
ghost use Rattle.mp_world.specs.Team.{Team};
ghost use Rattle.mp_world.specs.World.{World, agent_at};

/// In every world that a legal schedule leads to and that is not over, some event may happen, as long as agent 1 has a
/// number left for one more snapshot: numbers of snapshots are below 2^60.
pub fn teams_are_not_stuck()
    ensures { (team : Team) (schedule : List Event) (w : World) (first : AgentRecord)
        → IsRun team schedule w → is_over w ≡ false → agent_at w 1 ≡ Some first
        → first.snapshot.number + 1 < 2 ^ 60 → (event : Event) × (is_legal w event ≡ true) }
{}

/// A round of round robin of a team that is not over does something, as long as agent 1 has a number left for one more
/// snapshot.
pub fn rounds_do_something()
    ensures { (team : Team) (schedule events : List Event) (w next : World) (first : AgentRecord)
        → IsRun team schedule w → is_over w ≡ false → agent_at w 1 ≡ Some first
        → first.snapshot.number + 1 < 2 ^ 60 → Round team.value (length team.tasks) w events next
        → events ≢ [] }
{}

/// The number of agent 1's last snapshot is at most that of the events so far, since each snapshot was started by one.
pub fn snapshots_are_events()
    ensures { (team : Team) (schedule : List Event) (w : World) (first : AgentRecord)
        → IsRun team schedule w → agent_at w 1 ≡ Some first
        → first.snapshot.number ≤ length schedule }
{}

/// The search of a team does not go on over nine rounds of round robin in which no agent expands, as long as agent 1 has a
/// number left for one more snapshot: after two of them no state is under way and no agent has anything to expand, after four
/// more agent 1 has started a snapshot since, and after three more it has the findings of all, by which it decides.
pub fn searches_end_without_expansions()
    ensures { (team : Team) (t : AgentTask) (schedule : List Event) (w last : World)
        (first : AgentRecord)
        → Contains team.tasks t → IsRun team schedule w
        → AreQuietRounds team.value (length team.tasks) 9 w last → agent_at last 1 ≡ Some first
        → first.snapshot.number + 1 < 2 ^ 60 → ⊥ }
{}

/// The search of a team goes on over fewer than 1,440,000,009 rounds of round robin, as long as agent 1 has a number left for
/// one more snapshot: all agents together expand at most 160,000,000 entries, and not nine rounds in a row are without one.
pub fn searches_take_few_rounds()
    ensures { (team : Team) (t : AgentTask) (schedule : List Event) (rounds : ℕ) (w last : World)
        (first : AgentRecord)
        → Contains team.tasks t → IsRun team schedule w
        → AreSearchRounds team.value (length team.tasks) rounds w last
        → agent_at last 1 ≡ Some first → first.snapshot.number + 1 < 2 ^ 60 → rounds < 1440000009 }
{}

/// Round robin is over after fewer than 2^51 rounds, as long as agent 1 has a number left for one more snapshot: the search is
/// decided within few rounds; then a proved plan is walked back over one message more with each round, and it was reached
/// over fewer messages than there are entries, of which each of at most 16 agents keeps fewer than 2^46; and all agents end in
/// the round after one has ended.
pub fn round_robin_takes_few_rounds()
    ensures { (team : Team) (t : AgentTask) (schedule : List Event) (rounds : ℕ) (w last : World)
        (first : AgentRecord)
        → Contains team.tasks t → IsRun team schedule w
        → AreGoingRounds team.value (length team.tasks) rounds w last
        → agent_at last 1 ≡ Some first → first.snapshot.number + 1 < 2 ^ 60 → rounds < 2 ^ 51 }
{}
