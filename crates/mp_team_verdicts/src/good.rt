//! No agent ever finds a message to be a bad one. The law is the contract of a function that does
//! nothing.

ghost use Rattle.std.specs.Prelude.{◌≡◌, ◌≢◌, ℕ, true, List, ◌∷◌, Some, Ok};
ghost use Rattle.mp_machine.specs.AgentRecord.{AgentRecord, is_going};
ghost use Rattle.mp_machine.specs.Outgoing.{Step};
ghost use Rattle.mp_machine.specs.Taking.{took};
ghost use Rattle.mp_messages.specs.declared.history.Event.{Event};
ghost use Rattle.mp_world.specs.Events.{after_event, is_legal};
ghost use Rattle.mp_world.specs.IsRun.{IsRun};
ghost use Rattle.mp_world.specs.Team.{Team};
ghost use Rattle.mp_world.specs.World.{IsAgent, World, agent_at, under_way};

/// In every world that a legal schedule leads to, an agent that goes on finds no fault in the
/// oldest message that is under way to it from another agent: it takes a step. So each event that
/// may happen leads to a world.
pub fn no_message_is_bad()
    ensures taken { (team : Team) (schedule : List Event) (w : World) (from to : ℕ)
        (r : AgentRecord) (bytes : List ℕ) (later : List (List ℕ))
        → IsRun team schedule w → IsAgent w from → from ≢ to → agent_at w to ≡ Some r
        → is_going r.ending ≡ true → under_way w from to ≡ bytes ∷ later
        → (s : Step) × (took (team.value r.task) r from bytes ≡ Ok s) }
    ensures events { (team : Team) (schedule : List Event) (w : World) (event : Event)
        → IsRun team schedule w → is_legal w event ≡ true
        → (next : World) × (after_event team.value w event ≡ Some next) }
{}
