//! The agents of a team, for its united problem.

use crate::agent::UnitedAgent;
use crate::counts::several_counts;
use crate::dashes::dashes_of;
use crate::privates::{private_objects, private_predicates};
use mp_list::{List, OutOfMemory};
use mp_typing::CheckedFactor;
use std::alloc::Global;

/// An agent of a team.
fn united_agent<'a>(
    alloc: Global,
    team: &'a [CheckedFactor],
    dashes: usize,
    number: u64,
    checked: &'a CheckedFactor,
) -> Result<UnitedAgent<'a>, OutOfMemory> {
    Ok(UnitedAgent {
        checked,
        number,
        dashes,
        predicates: private_predicates(alloc, checked.factor())?,
        objects: private_objects(alloc, checked.factor())?,
        several: several_counts(alloc, team)?,
    })
}

/// The agents of a team, with what their names are in the united problem. Refuses only for want of memory.
pub fn united_agents(
    alloc: Global,
    team: &[CheckedFactor],
) -> Result<List<UnitedAgent<'_>>, OutOfMemory> {
    let dashes = dashes_of(team);
    let mut agents = List::new(alloc);
    for (before, checked) in team.iter().enumerate() {
        let number = (before as u64).saturating_add(1);
        agents.push(united_agent(alloc, team, dashes, number, checked)?)?;
    }
    Ok(agents)
}
