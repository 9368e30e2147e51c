//! States that are offered.

ghost use Rattle.std.specs.Prelude.{◌≡◌, ◌≤◌, ◌+◌, ◌^◌, nat_lt, IfOk, OnOk, length};
ghost use Rattle.mp_store.specs.Laws.{IsEarlier};
ghost use Rattle.mp_store.specs.Minima.{best};
ghost use Rattle.mp_search.specs.AgentState.{same_state};
ghost use Rattle.mp_search.specs.Offering.{best_after, offered_with, reception_of};
ghost use Rattle.mp_search.specs.StateKeys.{reached_state, HasSizes};
ghost use Rattle.mp_search.specs.Steps.{AreStatesOf};

use crate::answer::Received;
use crate::concern::is_goal;
use crate::reached::Reached;
use crate::states::{Arrival, States};
use mp_list::OutOfMemory;
use mp_store::Offer;
use mp_task::Task;

/// Every cost and estimate together are below it.
const LIMIT: u64 = 1 << 60;

/// Whether a cost and an estimate may be kept.
fn is_in_range(g: u64, h: u64) -> bool
    ensures { result ≡ nat_lt (g + h) (2 ^ 60) }
{
    h < LIMIT && g < LIMIT - h
}

/// What became of a state that the keep rule decided on.
fn reception(offer: Offer) -> Received
    ensures { result ≡ reception_of offer }
{
    match offer {
        Offer::Kept(entry) => Received::Kept(entry),
        Offer::Worse => Received::Worse,
    }
}

/// The best entry of a state after an offer of it, by that before.
pub(crate) fn best_after(found: Option<u64>, received: Received) -> Option<u64>
    ensures { result ≡ best_after found received }
{
    match received {
        Received::Kept(entry) => Some(entry),
        Received::Dead => found,
        Received::Worse => found,
    }
}

/// Offers a state. Its best entry is known, if it has one.
#[tactic(auto, unfolding(crate::specs::Offering::offered_with), using(crate::proofs::SendingSteps::same_states))]
pub(crate) fn offer_found(
    task: &Task,
    states: &mut States,
    state: &mut Reached,
    found: Option<u64>,
    arrival: Arrival,
) -> Result<Received, OutOfMemory>
    requires found { found ≡ best same_state (reached_state state.old) states.old.kept }
    requires states { AreStatesOf task.now states.old }
    requires sizes { HasSizes task.now.publics task.now.privates state.old }
    requires parent { IsEarlier (length states.old.kept.entries) arrival.origin }
    ensures offered { IfOk result (λ answer. (answer, states.new.kept)
        ≡ offered_with task.now (reached_state state.old) arrival.g arrival.h arrival.origin states.old.kept) }
    ensures states { OnOk result (AreStatesOf task.now states.new) }
    ensures longer { OnOk result (length states.old.kept.entries ≤ length states.new.kept.entries) }
    ensures state { reached_state state.new ≡ reached_state state.old }
    ensures sizes { HasSizes task.now.publics task.now.privates state.new }
{
    if !is_in_range(arrival.g, arrival.h) {
        return Ok(Received::Worse);
    }
    if states.is_as_cheap(found, arrival.g) {
        return Ok(Received::Worse);
    }
    let goal = is_goal(task, state);
    Ok(reception(states.offer(state, found, arrival, goal)?))
}

/// Offers a state.
pub(crate) fn offer(
    task: &Task,
    states: &mut States,
    state: &mut Reached,
    arrival: Arrival,
) -> Result<Received, OutOfMemory>
    requires states { AreStatesOf task.now states.old }
    requires sizes { HasSizes task.now.publics task.now.privates state.old }
    requires parent { IsEarlier (length states.old.kept.entries) arrival.origin }
    ensures offered { IfOk result (λ answer. (answer, states.new.kept)
        ≡ offered_with task.now (reached_state state.old) arrival.g arrival.h arrival.origin states.old.kept) }
    ensures states { OnOk result (AreStatesOf task.now states.new) }
    ensures sizes { HasSizes task.now.publics task.now.privates state.new }
{
    let found = states.best(state);
    offer_found(task, states, state, found, arrival)
}
