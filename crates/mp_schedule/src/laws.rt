//! The laws of the runs of a team. The contract is that of a function that does nothing.

ghost use Rattle.std.specs.Prelude.{◌≡◌, ℕ, Some};
ghost use Rattle.mp_messages.specs.declared.history.Event.TheVariants.{Expand};
ghost use Rattle.mp_schedule.specs.Laws.{KeepsLaws};
ghost use Rattle.mp_schedule.specs.TeamRun.{IsLogged, MayRun, TeamRun};
ghost use Rattle.mp_team_states.specs.Expansions.{ExpandsOne};
ghost use Rattle.mp_world.specs.Events.{after_event};
ghost use Rattle.mp_world.specs.World.{World};

use mp_task::Heuristic;
use mp_team_snapshots::cuts_are_worlds;
use mp_team_states::{
    entries_are_reached, estimates_and_flags_are_right, expansions_are_not_wasted,
    plans_leave_a_witness_in_runs, states_stay_sound, teams_stay_explored,
};
use mp_team_verdicts::{answers_are_right, verdicts_are_right};
use mp_world::runs_have_logs;

/// Each run of a team keeps the laws of runs, and an expansion in it is not wasted.
pub(crate) fn runs_keep_laws<H: Heuristic>()
    ensures laws { (r : TeamRun) → MayRun r → IsLogged H.value r → KeepsLaws H.value r }
    ensures one { (r : TeamRun) (agent : ℕ) (next : World) → MayRun r → IsLogged H.value r
        → after_event H.value r.world (Expand agent) ≡ Some next → ExpandsOne r.world agent next }
{
    runs_have_logs();
    entries_are_reached();
    states_stay_sound();
    estimates_and_flags_are_right::<H>();
    teams_stay_explored::<H>();
    plans_leave_a_witness_in_runs::<H>();
    expansions_are_not_wasted();
    cuts_are_worlds();
    verdicts_are_right::<H>();
    answers_are_right::<H>();
}
