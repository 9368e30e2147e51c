//! The line of the chain, which runs through the boxes of its actions.

use crate::columns::Column;
use crate::labels::action_at;
use crate::page::{LANE, top_of};
use crate::writing::push_number;
use mp_joint::PlanStep;
use mp_list::OutOfMemory;
use mp_messages::Bytes;

/// Appends a point of a line.
fn push_point(out: &mut Bytes, left: u64, top: u64) -> Result<(), OutOfMemory> {
    push_number(out, left)?;
    out.extend_from_slice(b",")?;
    push_number(out, top)?;
    out.extend_from_slice(b" ")
}

/// Appends the two points at which the line meets the box of an action.
fn push_points(out: &mut Bytes, column: Column, step: &PlanStep) -> Result<(), OutOfMemory> {
    let top = top_of(step.agent.number()).saturating_add(LANE / 2);
    push_point(out, column.left, top)?;
    push_point(out, column.right(), top)
}

/// Appends the line of a chain, which has one time of each step.
pub(crate) fn push_chain(
    out: &mut Bytes,
    plan: &[PlanStep],
    columns: &[Column],
    chain: &[u64],
) -> Result<(), OutOfMemory> {
    out.extend_from_slice(b"<polyline class=\"chain\" points=\"")?;
    for (column, time) in columns.iter().zip(chain) {
        if let Some(step) = action_at(plan, *time) {
            push_points(out, *column, step)?;
        }
    }
    out.extend_from_slice(b"\"/>\n")
}
