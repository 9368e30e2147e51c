//! Laws of a team that runs. Each is the contract of a function that does nothing.

ghost use Rattle.std.specs.Prelude.{◌≡◌, ℕ, IsTrue, Bool, true, List, [], ◌∷◌, ◌++◌, Some};
ghost use Rattle.mp_messages.specs.declared.history.Entry.{Entry};
ghost use Rattle.mp_messages.specs.declared.history.Event.{Event};
ghost use Rattle.mp_messages.specs.History.{schedule as schedule_of, under_way as under_way_in};
ghost use Rattle.mp_runs.specs.Run.{run as run_of};
ghost use Rattle.mp_task.specs.AgentTask.{AgentTask};
ghost use Rattle.mp_world.specs.Events.{after_event, run};
ghost use Rattle.mp_world.specs.Logs.{HasRun, IsLog, log_of_run};
ghost use Rattle.mp_world.specs.RoundRobin.{IsRoundRobin, is_over};
ghost use Rattle.mp_world.specs.Steps.{IsStepOf};
ghost use Rattle.mp_world.specs.Team.{Team};
ghost use Rattle.mp_world.specs.Values.{Values};
ghost use Rattle.mp_world.specs.World.{
  AreNumbered,
  IsAgent,
  IsTeamWorld,
  World,
  start_world,
  under_way,
};

/// An event that may happen changes its own agent and the messages that it takes and sends, and nothing else. The world
/// at the start is one of its team, and each event leads to another one.
pub fn events_change_one_agent()
    ensures step { (value : Values) (tasks : List AgentTask)
        (w : World) (event : Event) (next : World)
        → IsTeamWorld tasks w → after_event value w event ≡ Some next
        → IsStepOf value w event next }
    ensures team { (value : Values) (tasks : List AgentTask)
        (w : World) (event : Event) (next : World)
        → IsTeamWorld tasks w → after_event value w event ≡ Some next
        → IsTeamWorld tasks next }
    ensures start { (team : Team) → IsTeamWorld team.tasks (start_world team) }
{}

/// The world after a run is one of its team. What the world at the start has and each event keeps, it has too; and so it
/// is with what holds of the events so far and the world that they lead to.
pub fn runs_have_what_events_keep()
    ensures team { (team : Team) (schedule : List Event) (w : World)
        → run team schedule ≡ Some w → IsTeamWorld team.tasks w }
    ensures of_worlds { (team : Team) (holds : World → Bool)
        → IsTrue (holds (start_world team)) → ((w : World) (event : Event) (next : World)
        → IsTeamWorld team.tasks w → IsTrue (holds w) → IsStepOf team.value w event next
        → IsTrue (holds next)) → (schedule : List Event) (w : World) → run team schedule ≡ Some w
        → IsTrue (holds w) }
    ensures of_histories { (team : Team) (holds : List Event → World → Bool)
        → IsTrue (holds [] (start_world team))
        → ((past : List Event) (w : World) (event : Event) (next : World)
        → IsTeamWorld team.tasks w → IsTrue (holds past w) → IsStepOf team.value w event next
        → IsTrue (holds (past ++ event ∷ []) next)) → (schedule : List Event) (w : World)
        → run team schedule ≡ Some w → IsTrue (holds schedule w) }
{}

/// The log of a run has the run's schedule and is a log of its team. The messages that are under way in it are those that
/// are under way in the world after the run.
pub fn runs_have_logs()
    ensures schedule { (team : Team) (schedule : List Event) (w : World)
        → AreNumbered team.tasks → run team schedule ≡ Some w
        → schedule_of (log_of_run team schedule) ≡ schedule }
    ensures mail { (team : Team) (schedule : List Event) (w : World) (from to : ℕ)
        → AreNumbered team.tasks → run team schedule ≡ Some w → IsAgent w from → IsAgent w to
        → under_way w from to ≡ under_way_in from to (log_of_run team schedule) }
    ensures log { (team : Team) (schedule : List Event) (w : World)
        → AreNumbered team.tasks → run team schedule ≡ Some w
        → IsLog team (log_of_run team schedule) }
{}

/// A log of a team has the run of its schedule: it is legal, each agent has done in it what its part of the log says, and
/// the messages put between each two agents are those of the log.
pub fn logs_have_runs()
    ensures { (team : Team) (log : List Entry)
        → AreNumbered team.tasks → (is : IsLog team log) → HasRun team log is }
{}

/// The schedule of round robin leads, event by event, to a world that is over, and there is at most one.
pub fn round_robin_is_one_run()
    ensures run { (value : Values) (w last : World)
        (schedule : List Event)
        → IsRoundRobin value w schedule last
        → run_of (after_event value) w schedule ≡ Some last }
    ensures over { (value : Values) (w last : World)
        (schedule : List Event)
        → IsRoundRobin value w schedule last → is_over last ≡ true }
    ensures only { (value : Values) (w last final : World)
        (schedule another : List Event)
        → IsRoundRobin value w schedule last → IsRoundRobin value w another final
        → (schedule ≡ another) × (last ≡ final) }
{}
