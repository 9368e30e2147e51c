//! Laws of what calls keep, and of what is printed for two requests. Each is the contract of a function that does no more than
//! call the laws that it rests on.

ghost use Rattle.std.specs.Prelude.{◌≡◌, ◌≤◌, ◌↔◌, ℕ, List, Option, Some, length};
ghost use Rattle.mp_forms.specs.declared.factor.Factor.{Factor};
ghost use Rattle.mp_messages.specs.History.{schedule};
ghost use Rattle.mp_outside.specs.Source.{Files};
ghost use Rattle.mp_stands.specs.Renaming.{Renaming};
ghost use Rattle.mp_stands.specs.Team.{IsRenamedTeam};
ghost use Rattle.mp_split.specs.Team.{AreTasksOf};
ghost use Rattle.mp_split.specs.declared.team.Tasks.{Tasks};
ghost use Rattle.mp_top.specs.Asked.{KeepsLimits, Texts, longest_schedule, team_request, texts_of, values_of};
ghost use Rattle.mp_top.specs.Call.{Call};
ghost use Rattle.mp_top.specs.Complete.{HadNoFault, IsAnswered, IsNotRefused, TellsFirst, TellsValid};
ghost use Rattle.mp_top.specs.First.{IsFirst};
ghost use Rattle.mp_top.specs.FirstText.{IsHeld};
ghost use Rattle.mp_top.specs.Keeps.{Keeps};
ghost use Rattle.mp_top.specs.Outcome.{AreSameRuns, HasTrace, IsInTurn, IsPrintedAgain, Printed, Searches};
ghost use Rattle.mp_top.specs.Team.{IsFoundForBoth, IsTeam};
ghost use Rattle.mp_top.specs.declared.refusal.Refusal.{Refusal};
ghost use Rattle.mp_words.specs.Requests.{Searching, ToCheck, ToReplay, Wanted, request_of};
ghost use Rattle.mp_words.specs.Requests.Wanted.{checks, replays};
ghost use Rattle.mp_world.specs.Logs.{IsLog};
ghost use Rattle.mp_world.specs.Team.{team_with};

use crate::first::one_first;
use crate::status::Status;
use mp_files::one_team;
use mp_replays::{renaming_changes_no_message, traces_are_replayed};

/// What is printed with a trace is a schedule, whether the agents took turns or workers served them. Where files hold it
/// under a name, and the same as was found for the agents, nothing of a request that replays it, with the same heuristic and
/// limit, is refused, as long as it is no longer than a schedule may be, 67,108,864 bytes; and that request prints the same
/// text, with the same status, answer and views, after the same messages between each two agents. The log is the same, too,
/// where the agents took turns.
pub fn traces_are_printed_again()
    ensures accepted { (held : Option Files) (files : Files) (request : Wanted) (replay : ToReplay)
        (first : Printed held request) (r : Refusal)
        → KeepsLimits request → Searches request replay.search → HasTrace request
        → IsFoundForBoth held (Some files) (texts_of request) (texts_of (replays replay))
        → files replay.schedule ≡ Some first.text → length first.text ≤ longest_schedule
        → IsFirst files (team_request (replays replay)) r → ⊥ }
    ensures same { (held other : Option Files) (request : Wanted) (replay : ToReplay)
        (first : Printed held request) (second : Printed other (replays replay))
        → KeepsLimits request → Searches request replay.search → HasTrace request
        → IsFoundForBoth held other (texts_of request) (texts_of (replays replay))
        → IsHeld other replay.schedule first.text
        → IsPrintedAgain held other request (replays replay) first second }
{
    traces_are_replayed();
    one_team();
    one_first();
}

/// Where one agent of the team that files make renames its private names, and the heuristic and the limit are the same, all
/// agents show the same bytes, and what they did and sent is a log of the other team too: of the tasks that its files make. Where
/// both teams did the same events, the same messages were sent between each two agents, byte for byte and in the same
/// order, one trace and the same counts tell it, and the same answer was found. The logs are equal then where in each of
/// them the events happened one after another: where no workers served the agents.
pub fn renaming_changes_no_outcome()
    ensures views { (files others : Files) (request : Wanted) (texts : Texts) (s : Searching)
        (first : Printed (Some files) request) (team other : List Factor) (place : ℕ) (r : Renaming) (tasks : Tasks)
        → Searches request s
        → IsTeam (Some files) (texts_of request) team → IsTeam (Some others) texts other
        → IsRenamedTeam place r team other → AreTasksOf other tasks
        → tasks.views ≡ first.report.views }
    ensures log { (files others : Files) (request : Wanted) (texts : Texts) (s : Searching)
        (first : Printed (Some files) request) (team other : List Factor) (place : ℕ) (r : Renaming) (tasks : Tasks)
        → Searches request s
        → IsTeam (Some files) (texts_of request) team → IsTeam (Some others) texts other
        → IsRenamedTeam place r team other → AreTasksOf other tasks
        → IsLog (team_with (values_of s.heuristic) s.limit tasks.tasks) first.report.log }
    ensures messages { (files others : Files) (request its : Wanted) (s : Searching)
        (first : Printed (Some files) request) (second : Printed (Some others) its)
        (team other : List Factor) (place : ℕ) (r : Renaming)
        → Searches request s → Searches its s
        → IsTeam (Some files) (texts_of request) team → IsTeam (Some others) (texts_of its) other
        → IsRenamedTeam place r team other
        → schedule second.report.log ≡ schedule first.report.log
        → AreSameRuns first.report second.report }
    ensures in_turn { (files others : Files) (request its : Wanted) (s : Searching)
        (first : Printed (Some files) request) (second : Printed (Some others) its)
        (team other : List Factor) (place : ℕ) (r : Renaming)
        → Searches request s → Searches its s
        → IsTeam (Some files) (texts_of request) team → IsTeam (Some others) (texts_of its) other
        → IsRenamedTeam place r team other → IsInTurn request → IsInTurn its
        → schedule second.report.log ≡ schedule first.report.log
        → second.report.log ≡ first.report.log }
{
    renaming_changes_no_message();
    one_team();
}

/// Where a source tells what it holds, nothing of that is refused for a request, and neither the source nor the output had a
/// fault, a call answers: `solve`, `certify` and `make` that a plan was found, that there is none, or that nothing is decided;
/// `replay` so, or that the schedule ended before; `check` and `steps` that the plan is valid, or that it is not; `audit` that it
/// is optimal, or that this is not shown; or memory ran out.
pub fn answers_are_complete()
    ensures { (call : Call) (files : Files) (request : Wanted)
        → Keeps call → call.source.held ≡ Some files → request_of call.words ≡ Some request
        → IsNotRefused files (team_request request) → HadNoFault call
        → IsAnswered request call }
{}

/// The first refusal comes: where a source tells what it holds, and that has a first refusal for a request, a call ends with its
/// status and tells its line, but for faults of reading and want of memory.
pub fn first_refusals_come()
    ensures { (call : Call) (files : Files) (request : Wanted) (r : Refusal)
        → Keeps call → call.source.held ≡ Some files → request_of call.words ≡ Some request
        → IsFirst files (team_request request) r
        → TellsFirst call request r }
{
    one_first();
}

/// What is printed of a plan that is checked tells whether it is valid: status 0 comes exactly with `valid cost C`, or, where the
/// steps are asked for, exactly with the steps and the chain of the plan.
pub fn valid_plans_are_told()
    ensures { (held : Option Files) (w : ToCheck) (first : Printed held (checks w))
        → (first.ended ≡ Status.Solved)
        ↔ TellsValid w.steps first.outcome.team first.outcome.told.plan first.text }
{}
