//! The grounded factors of a team.

ghost use Rattle.std.specs.Prelude.{◌≡◌, ◌+◌, IfSome};

use mp_grounder::{Ground, GroundRefusal, ground};
use mp_lifting::OpenView;
use mp_list::OutOfMemory;
use mp_sets::Agent;
use mp_typing::CheckedFactor;
use std::alloc::Global;

/// The agent at a place of a team, from 0: none where there are not so many.
pub fn agent_at(place: usize) -> Option<Agent>
    ensures { IfSome result (λ agent. agent ≡ place + 1) }
{
    if place < 16 {
        return Agent::new(place as u16 + 1);
    }
    None
}

/// Adds a grounded factor.
fn keep(grounds: &mut Vec<Ground>, made: Ground) -> Result<(), OutOfMemory> {
    grounds.push(made)?;
    Ok(())
}

/// Adds the grounded factor of the agent at a place.
fn add_ground(
    alloc: Global,
    grounds: &mut Vec<Ground>,
    place: usize,
    checked: &CheckedFactor,
    known: &OpenView,
) -> Result<(), GroundRefusal> {
    if let Some(me) = agent_at(place) {
        let made = ground(alloc, me, checked, known)?;
        keep(grounds, made)?;
    }
    Ok(())
}

/// The grounded factors of a team that shows this before grounding. Refuses as `maplan` does where the factor of an agent is
/// too large, and for want of memory.
pub fn grounds_of(
    alloc: Global,
    team: &[CheckedFactor],
    known: &OpenView,
) -> Result<Vec<Ground>, GroundRefusal> {
    let mut grounds = Vec::new(alloc);
    for (place, checked) in team.iter().enumerate() {
        add_ground(alloc, &mut grounds, place, checked, known)?;
    }
    Ok(grounds)
}
