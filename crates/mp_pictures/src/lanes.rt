//! The lanes of the agents, their names, and the numbers of the steps.

use crate::columns::{Column, NAMED_GAP, is_named};
use crate::page::{LANE, MARGIN, TOP, bottom_of, top_of};
use crate::shapes::{Area, push_area, push_numbered};
use mp_list::OutOfMemory;
use mp_messages::Bytes;

/// Appends the ground of the lanes: every second one is darker.
pub(crate) fn push_lanes(out: &mut Bytes, width: u64, agents: u16) -> Result<(), OutOfMemory> {
    for before in 0..agents {
        if before % 2 == 0 {
            let lane = Area {
                left: 0,
                top: top_of(before.saturating_add(1)),
                width,
                height: LANE,
            };
            push_area(out, b"lane", lane)?;
        }
    }
    Ok(())
}

/// Appends the names of all agents, each in its lane, from this place to the right.
fn push_names(out: &mut Bytes, left: u64, agents: u16) -> Result<(), OutOfMemory> {
    for before in 0..agents {
        let agent = before.saturating_add(1);
        let top = top_of(agent).saturating_add(16);
        push_numbered(out, b"agent", left, top, b"agent ", u64::from(agent))?;
    }
    Ok(())
}

/// Appends the names of all agents before each column where they are named, and where there is none.
pub(crate) fn push_all_names(
    out: &mut Bytes,
    columns: &[Column],
    agents: u16,
) -> Result<(), OutOfMemory> {
    if columns.is_empty() {
        return push_names(out, MARGIN, agents);
    }
    for (place, column) in columns.iter().enumerate() {
        if is_named(place) {
            push_names(out, column.left.saturating_sub(NAMED_GAP), agents)?;
        }
    }
    Ok(())
}

/// Appends the numbers of the steps, above and below the lanes.
pub(crate) fn push_step_numbers(
    out: &mut Bytes,
    columns: &[Column],
    agents: u16,
) -> Result<(), OutOfMemory> {
    let below = bottom_of(agents).saturating_add(20);
    for (place, column) in columns.iter().enumerate() {
        let number = (place as u64).saturating_add(1);
        push_numbered(out, b"step", column.middle(), TOP - 10, b"", number)?;
        push_numbered(out, b"step", column.middle(), below, b"", number)?;
    }
    Ok(())
}
