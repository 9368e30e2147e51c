//! Which entries show what is to be paid. The law is the contract of a function that does nothing.

ghost use Rattle.std.specs.Prelude.{◌≡◌, ℕ, List};
ghost use Rattle.mp_messages.specs.declared.history.Event.{Event};
ghost use Rattle.mp_world.specs.IsRun.{IsRun};
ghost use Rattle.mp_world.specs.Team.{Team};
ghost use Rattle.mp_world.specs.World.{World};
ghost use Rattle.mp_team_states.specs.Expansions.{nothing_known};
ghost use Rattle.mp_audit.specs.LastCut.{last_bounds};
ghost use Rattle.mp_certify.specs.Latest.{latest_bounds};

/// An entry is kept only where it costs less than those that its agent has of the same state. So of the entries that an agent
/// had noted the cheapest one of a state is the latest, and no two entries have to be compared by their costs.
pub fn cheapest_entries_are_the_latest()
    ensures { (team : Team) (schedule : List Event) (w : World) (cost : ℕ)
        → team.value ≡ nothing_known → IsRun team schedule w
        → latest_bounds w cost ≡ last_bounds w cost }
{}
