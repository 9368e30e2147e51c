//! The objects of the united problem.

use mp_forms::Typed;
use mp_list::OutOfMemory;
use mp_messages::Bytes;
use mp_united_names::UnitedAgent;

/// Appends a line for each object of an agent among these.
fn push_of_list(
    out: &mut Bytes,
    agent: &UnitedAgent<'_>,
    objects: &[Typed],
) -> Result<(), OutOfMemory> {
    for object in objects {
        out.extend_from_slice(b"  ")?;
        agent.push_object(out, &object.word.name)?;
        out.push(b'\n')?;
    }
    Ok(())
}

/// Appends a line for each object of a team.
pub(crate) fn push_objects(out: &mut Bytes, team: &[UnitedAgent<'_>]) -> Result<(), OutOfMemory> {
    for agent in team {
        push_of_list(out, agent, agent.domain().constants.as_slice())?;
        push_of_list(out, agent, agent.problem().objects.as_slice())?;
    }
    Ok(())
}
