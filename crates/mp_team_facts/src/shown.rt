//! What all agents show before grounding.

ghost use Rattle.std.specs.Prelude.{◌≡◌, map, IfOk};
ghost use Rattle.mp_views.specs.Opened.{joined, open_view as open_view_of};

use mp_lifting::OpenView;
use mp_list::OutOfMemory;
use mp_typing::CheckedFactor;
use mp_views::{join, open_view};
use std::alloc::Global;

/// What each agent shows before grounding.
fn open_views(alloc: Global, team: &[CheckedFactor]) -> Result<Vec<OpenView>, OutOfMemory>
    ensures { IfOk result (λ views. views.items ≡ map open_view_of team.now) }
{
    let mut views = Vec::with_capacity(alloc, team.len())?;
    for checked in team {
        views.push(open_view(alloc, checked)?)?;
    }
    Ok(views)
}

/// What all agents show together before grounding. Refuses only for want of memory.
pub fn shown_by_all(alloc: Global, team: &[CheckedFactor]) -> Result<OpenView, OutOfMemory>
    ensures { IfOk result (λ view. view ≡ joined (map open_view_of team.now)) }
{
    let views = open_views(alloc, team)?;
    join(alloc, views.as_slice())
}
