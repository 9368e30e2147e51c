//! What each agent of a team shows the others.

use mp_grounder::GroundRefusal;
use mp_hints::text_of;
use mp_list::OutOfMemory;
use mp_messages::Bytes;
use mp_split::tasks;
use mp_typing::CheckedFactor;
use std::alloc::Global;

/// Writes the lines of each agent below a line with its number.
fn push_views(out: &mut String, views: &[Bytes]) -> Result<(), OutOfMemory> {
    let mut number: u64 = 1;
    for view in views {
        let lines = text_of(view.as_slice());
        write!(out, "agent {number} shows\n{lines}")?;
        number = number.saturating_add(1);
    }
    Ok(())
}

/// Writes what each agent of a team shows the others, before grounding and after it, below a line with its number. Refuses
/// as `maplan` does where the factor of an agent is too large, and for want of memory.
pub fn explain_views(
    alloc: Global,
    out: &mut String,
    team: &[CheckedFactor],
) -> Result<(), GroundRefusal> {
    if team.is_empty() || team.len() > 16 {
        return Ok(());
    }
    let made = tasks(alloc, team)?;
    Ok(push_views(out, made.views.as_slice())?)
}
