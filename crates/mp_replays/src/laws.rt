//! The laws. Each is the contract of a function that does nothing.

ghost use Rattle.std.specs.Prelude.{◌≡◌, ◌≤◌, ℕ, List, All, length};
ghost use Rattle.mp_forms.specs.declared.factor.Factor.{Factor};
ghost use Rattle.mp_ground_laws.specs.Checked.{IsChecked};
ghost use Rattle.mp_joint.specs.Fact.{Text};
ghost use Rattle.mp_messages.specs.declared.history.Event.{Event};
ghost use Rattle.mp_solutions.specs.Solution.{IsFound, IsFoundInTurn, IsRefusedLine, IsReplayed};
ghost use Rattle.mp_solutions.specs.declared.solution.Solution.{Solution};
ghost use Rattle.mp_split.specs.Team.{AreTasksOf};
ghost use Rattle.mp_split.specs.declared.team.Tasks.{Tasks};
ghost use Rattle.mp_world.specs.Logs.{IsLog};
ghost use Rattle.mp_world.specs.Team.{team_with};
ghost use Rattle.mp_world.specs.Values.{Values};
ghost use Rattle.mp_stands.specs.Renaming.{Renaming};
ghost use Rattle.mp_stands.specs.Team.{IsRenamedTeam};
ghost use Rattle.mp_replays.specs.Renamed.{KeepsTasks};
ghost use Rattle.mp_replays.specs.Same.{AreSameSearches, IsFoundAgain};
ghost use Rattle.mp_replays.specs.Traces.{IsTraceOf};

use mp_stands::renaming::renaming_changes_no_task;

/// What renaming leaves as it is, in one record.
fn renaming_keeps_tasks()
    ensures { KeepsTasks }
{
    renaming_changes_no_task();
}

/// The files of a team have one list of tasks.
pub fn tasks_are_one()
    ensures { (team : List Factor) (t u : Tasks) → All IsChecked team → AreTasksOf team t → AreTasksOf team u
        → u.tasks ≡ t.tasks }
{
    renaming_keeps_tasks();
}

/// A schedule's text has at most one refused line, and none where it is replayed.
pub fn refused_lines_are_one()
    ensures one { (value : Values) (limit : ℕ) (team : List Factor) (text : Text)
        (m n : ℕ) → All IsChecked team
        → IsRefusedLine value limit team text m → IsRefusedLine value limit team text n → m ≡ n }
    ensures none { (value : Values) (limit : ℕ) (team : List Factor) (text : Text)
        (found : Solution) (n : ℕ) → All IsChecked team
        → IsReplayed value limit team text found → IsRefusedLine value limit team text n → ⊥ }
{
    renaming_keeps_tasks();
}

/// Where a team found something by some schedule, on one thread or by workers, the text of its trace is a schedule that is
/// not refused, and what is found by it is the same: schedule, messages of each two agents, trace, answer, text and views.
/// Where the events happened one after another, the trace leads to just what was found, and the logs are equal where those of
/// both did.
pub fn traces_are_replayed()
    ensures accepted { (value : Values) (limit : ℕ) (team : List Factor)
        (schedule : List Event) (found : Solution) (text : Text) (n : ℕ)
        → All IsChecked team → length team ≤ 16
        → IsFound value limit team schedule found → IsTraceOf found.log text
        → IsRefusedLine value limit team text n → ⊥ }
    ensures replayed { (value : Values) (limit : ℕ) (team : List Factor)
        (schedule : List Event) (found : Solution) (text : Text)
        → All IsChecked team → length team ≤ 16
        → IsFoundInTurn value limit team schedule found → IsTraceOf found.log text
        → IsReplayed value limit team text found }
    ensures same { (value : Values) (limit : ℕ) (team : List Factor)
        (schedule : List Event) (found again : Solution) (text : Text)
        → All IsChecked team → length team ≤ 16
        → IsFound value limit team schedule found → IsTraceOf found.log text
        → IsReplayed value limit team text again
        → IsFoundAgain found again }
    ensures in_turn { (value : Values) (limit : ℕ) (team : List Factor)
        (schedule : List Event) (found again : Solution) (text : Text)
        → All IsChecked team → length team ≤ 16
        → IsFoundInTurn value limit team schedule found → IsTraceOf found.log text
        → IsReplayed value limit team text again
        → again.log ≡ found.log }
{
    renaming_keeps_tasks();
}

/// Where one agent of a team renames its private names, all agents show the same bytes; what is a log of the one team
/// is a log of the other; and by one schedule the same messages are sent between each two agents, byte for byte and in the
/// same order, and the same answer is found. The logs are equal where the events of both happened one after another.
pub fn renaming_changes_no_message()
    ensures views { (value : Values) (limit place : ℕ) (r : Renaming)
        (team other : List Factor) (schedule : List Event) (found : Solution) (u : Tasks)
        → All IsChecked team → All IsChecked other → IsRenamedTeam place r team other
        → IsFound value limit team schedule found → AreTasksOf other u → u.views ≡ found.views }
    ensures logs { (value : Values) (limit place : ℕ) (r : Renaming)
        (team other : List Factor) (schedule : List Event) (found : Solution) (u : Tasks)
        → All IsChecked team → All IsChecked other → IsRenamedTeam place r team other
        → IsFound value limit team schedule found → AreTasksOf other u → IsLog (team_with value limit u.tasks) found.log }
    ensures messages { (value : Values) (limit place : ℕ) (r : Renaming)
        (team other : List Factor) (schedule : List Event) (found its : Solution)
        → All IsChecked team → All IsChecked other → IsRenamedTeam place r team other
        → IsFound value limit team schedule found → IsFound value limit other schedule its
        → AreSameSearches found its }
    ensures in_turn { (value : Values) (limit place : ℕ) (r : Renaming)
        (team other : List Factor) (schedule : List Event) (found its : Solution)
        → All IsChecked team → All IsChecked other → IsRenamedTeam place r team other
        → IsFoundInTurn value limit team schedule found → IsFoundInTurn value limit other schedule its
        → its.log ≡ found.log }
{
    renaming_keeps_tasks();
}
