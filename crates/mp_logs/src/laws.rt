//! Laws of logs. Each is the contract of a function that does nothing.

ghost use Rattle.std.specs.Prelude.{◌≡◌, ℕ, true, List, [], ◌∷◌, ◌++◌, length, Option, Ok, Contains, option_and_then};
ghost use Rattle.mp_machine.specs.AgentRecord.{AgentRecord, new_record};
ghost use Rattle.mp_machine.specs.LocalStep.{local, may};
ghost use Rattle.mp_machine.specs.Outgoing.{Step};
ghost use Rattle.mp_messages.specs.declared.history.Entry.{Entry};
ghost use Rattle.mp_messages.specs.declared.history.Event.{Event};
ghost use Rattle.mp_messages.specs.History.{part, schedule as schedule_of};
ghost use Rattle.mp_runs.specs.Run.{run as run_of};
ghost use Rattle.mp_sets.specs.Numbers.{Numbers};
ghost use Rattle.mp_task.specs.AgentTask.{AgentTask};
ghost use Rattle.mp_world.specs.Events.{after_event, agent_of, local_of, run, sent_in};
ghost use Rattle.mp_world.specs.Logs.{HasDone, IsLog, entries_of};
ghost use Rattle.mp_world.specs.Team.{Team};
ghost use Rattle.mp_world.specs.Values.{Values};
ghost use Rattle.mp_world.specs.World.{AreNumbered, World};
ghost use Rattle.mp_logs.specs.Alike.{AreAlike};
ghost use Rattle.mp_logs.specs.Parts.{IsTeamHistory, IsLogOfParts};
ghost use Rattle.mp_logs.specs.Served.{HasServed, IsSettled, Served};

/// A schedule is done from its front, the first event and then the others, and from its back, all but the last event and
/// then that one.
pub fn schedules_are_done_in_parts()
    ensures front { (value : Values) (w : World) (event : Event)
        (later : List Event)
        → run_of (after_event value) w (event ∷ later)
        ≡ option_and_then (λ next. run_of (after_event value) next later) (after_event value w event) }
    ensures back { (team : Team) (before : List Event) (event : Event)
        → run team (before ++ event ∷ [])
        ≡ option_and_then (λ w. after_event team.value w event) (run team before) }
{}

/// What an agent has done goes on: with what it does from there, and with one event more.
pub fn what_is_done_goes_on()
    ensures both { (value : Numbers → Numbers → Option ℕ) (first middle last : AgentRecord)
        (front back : List Entry)
        → HasDone value first front middle → HasDone value middle back last
        → HasDone value first (front ++ back) last }
    ensures next { (value : Numbers → Numbers → Option ℕ) (first middle : AgentRecord)
        (log : List Entry) (event : Event) (bytes : List ℕ) (s : Step)
        → HasDone value first log middle → agent_of event ≡ middle.task.me
        → may middle (local_of event) ≡ true
        → local value middle (local_of event) bytes ≡ Ok s
        → HasDone value first (log ++ entries_of event bytes (sent_in s)) s.after }
{}

/// A legal history of the agents of a team, each of whom has done its part, is a log of the team, and each agent is after
/// the run of its schedule what it is by its part.
pub fn parts_make_a_log()
    ensures { (team : Team) (log : List Entry) (record_of : AgentTask → AgentRecord)
        → AreNumbered team.tasks → IsTeamHistory team.tasks log → ((t : AgentTask)
        → Contains team.tasks t
        → HasDone (team.value t) (new_record t (team.value t) team.limit) (part log t.me) (record_of t))
        → IsLogOfParts team log record_of }
{}

/// Two logs of a team that have one schedule have the same part for each agent, and between each two agents the same
/// messages were put and taken, in the same order. Only entries of different agents may stand in another order.
pub fn logs_of_one_schedule_are_alike()
    ensures { (team : Team) (log other : List Entry)
        → AreNumbered team.tasks → IsLog team log → IsLog team other
        → schedule_of other ≡ schedule_of log → AreAlike log other }
{}

/// A legal history of the agents of a team, some of whom took a message last that they found to be a bad one, becomes a
/// log of the team: those last receipts are left out, and what the agents have done and not yet signed stands behind. The
/// bad messages are then under way, each the next one for its agent.
pub fn bad_receipts_are_left_out()
    ensures { (team : Team) (log : List Entry) (served : AgentTask → Served)
        → AreNumbered team.tasks → IsTeamHistory team.tasks log → ((t : AgentTask)
        → Contains team.tasks t → HasServed team.value team.limit t (part log t.me) (served t))
        → (settled : List Entry) × IsSettled team served settled }
{}
