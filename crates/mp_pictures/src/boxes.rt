//! The boxes of actions, each in the column of its step and the lane of its agent.

use crate::columns::Column;
use crate::labels::{action_at, argument_line, push_cut};
use crate::page::{LANE, top_of};
use crate::shapes::{Area, begin_text, end_text, push_area};
use crate::writing::{push_escaped, push_number};
use mp_joint::PlanStep;
use mp_list::{List, OutOfMemory};
use mp_messages::Bytes;
use std::alloc::Global;

/// How high a box is.
const HEIGHT: u64 = 38;

/// The box of an action of an agent.
fn area_of(column: Column, agent: u16) -> Area {
    Area {
        left: column.left,
        top: top_of(agent).saturating_add((LANE - HEIGHT) / 2),
        width: column.width,
        height: HEIGHT,
    }
}

/// Appends an action as plans write it.
fn push_action(out: &mut Bytes, name: &[u8], arguments: &[u8]) -> Result<(), OutOfMemory> {
    out.extend_from_slice(b"(")?;
    push_escaped(out, name)?;
    if !arguments.is_empty() {
        out.extend_from_slice(b" ")?;
        push_escaped(out, arguments)?;
    }
    out.extend_from_slice(b")")
}

/// Appends the hint that a viewer shows at a box: the agent, the time and the whole action.
fn push_hint(
    out: &mut Bytes,
    time: u64,
    step: &PlanStep,
    arguments: &[u8],
) -> Result<(), OutOfMemory> {
    out.extend_from_slice(b"<title>agent ")?;
    push_number(out, u64::from(step.agent.number()))?;
    out.extend_from_slice(b", time ")?;
    push_number(out, time)?;
    out.extend_from_slice(b": ")?;
    push_action(out, step.action.as_slice(), arguments)?;
    out.extend_from_slice(b"</title>\n")
}

/// Appends a line of text in a box, so far below its upper edge.
fn push_line(
    out: &mut Bytes,
    class: &[u8],
    column: Column,
    top: u64,
    line: &[u8],
) -> Result<(), OutOfMemory> {
    begin_text(out, class, column.middle(), top)?;
    push_cut(out, line)?;
    end_text(out)
}

/// Appends what stands in a box: the name of its action, and below it the arguments.
fn push_lines(
    out: &mut Bytes,
    column: Column,
    top: u64,
    name: &[u8],
    arguments: &[u8],
) -> Result<(), OutOfMemory> {
    if arguments.is_empty() {
        return push_line(out, b"name", column, top.saturating_add(24), name);
    }
    push_line(out, b"name", column, top.saturating_add(16), name)?;
    push_line(out, b"args", column, top.saturating_add(31), arguments)
}

/// Appends a box of a class with its action, whose arguments are these.
fn push_filled(
    out: &mut Bytes,
    class: &[u8],
    column: Column,
    time: u64,
    step: &PlanStep,
    arguments: &[u8],
) -> Result<(), OutOfMemory> {
    let area = area_of(column, step.agent.number());
    out.extend_from_slice(b"<g>")?;
    push_hint(out, time, step, arguments)?;
    push_area(out, class, area)?;
    push_lines(out, column, area.top, step.action.as_slice(), arguments)?;
    out.extend_from_slice(b"</g>\n")
}

/// Appends the box of an action of a time.
fn push_box(
    alloc: Global,
    out: &mut Bytes,
    class: &[u8],
    column: Column,
    time: u64,
    step: &PlanStep,
) -> Result<(), OutOfMemory> {
    let arguments = argument_line(alloc, step.args.as_slice())?;
    push_filled(out, class, column, time, step, arguments.as_slice())
}

/// The class of the box of a time, in a step in which the chain has this time.
fn class_of(time: u64, chained: Option<u64>) -> &'static [u8] {
    if chained == Some(time) {
        return b"chained";
    }
    b"action"
}

/// Appends the boxes of a step, in which the chain has this time.
fn push_step(
    alloc: Global,
    out: &mut Bytes,
    plan: &[PlanStep],
    column: Column,
    times: &[u64],
    chained: Option<u64>,
) -> Result<(), OutOfMemory> {
    for time in times {
        if let Some(step) = action_at(plan, *time) {
            push_box(alloc, out, class_of(*time, chained), column, *time, step)?;
        }
    }
    Ok(())
}

/// Appends the boxes of the step at a place.
fn push_step_at(
    alloc: Global,
    out: &mut Bytes,
    plan: &[PlanStep],
    columns: &[Column],
    place: usize,
    times: &List<u64>,
    chain: &[u64],
) -> Result<(), OutOfMemory> {
    match columns.get(place) {
        Some(column) => {
            let chained = chain.get(place).copied();
            push_step(alloc, out, plan, *column, times.as_slice(), chained)
        }
        None => Ok(()),
    }
}

/// Appends the boxes of all steps.
pub(crate) fn push_boxes(
    alloc: Global,
    out: &mut Bytes,
    plan: &[PlanStep],
    columns: &[Column],
    steps: &[List<u64>],
    chain: &[u64],
) -> Result<(), OutOfMemory> {
    for (place, times) in steps.iter().enumerate() {
        push_step_at(alloc, out, plan, columns, place, times, chain)?;
    }
    Ok(())
}
