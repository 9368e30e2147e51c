//! What holds of every trace.

ghost use Rattle.std.specs.Prelude.{◌≡◌, ℕ, ◌≤◌, ◌++◌, ◌∷◌, true, List, Ok, All, map};
ghost use Rattle.mp_messages.specs.History.{schedule};
ghost use Rattle.mp_messages.specs.declared.history.Entry.{Entry};
ghost use Rattle.mp_text.specs.Again.{IsOfTeam, numbered_events};
ghost use Rattle.mp_text.specs.Alike.{TellTheSame};
ghost use Rattle.mp_text.specs.Schedule.{is_end, schedule_in};
ghost use Rattle.mp_text.specs.Trace.{trace_text};
ghost use Rattle.mp_world.specs.Logs.{IsLog};
ghost use Rattle.mp_world.specs.Team.{Team};
ghost use Rattle.mp_world.specs.World.{AreNumbered};

/// Where the agents of a log are those of a team, each message goes from one agent to another, and
/// none that is put is empty, its trace is read as its schedule, each event with the number of its
/// line in the trace. So it is where a line that ends a schedule and anything else follow the
/// trace.
pub fn traces_are_read_again()
    ensures read { (agents : ℕ) (log : List Entry) → agents ≤ 16 → All (IsOfTeam agents) log
        → schedule_in agents (trace_text log) ≡ Ok (numbered_events 1 log) }
    ensures ended { (agents : ℕ) (log : List Entry) (end more : List ℕ) → agents ≤ 16
        → All (IsOfTeam agents) log → is_end end ≡ true
        → schedule_in agents (trace_text log ++ (end ++ 10 ∷ more)) ≡ Ok (numbered_events 1 log) }
    ensures events { (number : ℕ) (log : List Entry)
        → map (λ line. line.event) (numbered_events number log) ≡ schedule log }
{}

/// Two logs of a team that have one schedule have the same trace, the same counts and the same text
/// of each outcome, wherever the messages that the agents put stand between entries of other
/// agents.
pub fn logs_of_one_schedule_tell_the_same()
    ensures { (team : Team) (log other : List Entry)
        → AreNumbered team.tasks → IsLog team log → IsLog team other
        → schedule other ≡ schedule log → TellTheSame log other }
{}
