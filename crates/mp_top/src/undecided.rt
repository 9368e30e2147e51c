//! What is known where a call decided nothing.

ghost use Rattle.std.specs.Prelude.{◌≡◌, Some};
ghost use Rattle.mp_top.specs.Asked.{texts_of};
ghost use Rattle.mp_top.specs.Call.{Call};
ghost use Rattle.mp_top.specs.Keeps.{Keeps};
ghost use Rattle.mp_top.specs.Outcome.{Searches};
ghost use Rattle.mp_top.specs.Undecided.{IsSpent};
ghost use Rattle.mp_words.specs.Requests.{Searching, Wanted, request_of};

use crate::status::Status;
use mp_files::one_team;
use mp_replays::tasks_are_one;

/// Where a call ends so that nothing was decided about a plan, an agent has expanded as many entries as it may, no more and no fewer,
/// by the report's log; and it is no agent that is alone, searches without a heuristic and may expand as many as there are sets of its
/// facts.
pub fn undecided_is_spent()
    ensures { (call : Call) (request : Wanted) (s : Searching)
        → Keeps call → request_of call.words ≡ Some request → Searches request s → call.status ≡ Status.Undecided
        → IsSpent call.source.held (texts_of request) s call.report.log }
{
    one_team();
    tasks_are_one();
}
