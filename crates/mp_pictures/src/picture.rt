//! The picture of a plan.

use crate::boxes::push_boxes;
use crate::chain::push_chain;
use crate::columns::{Column, columns_of};
use crate::lanes::{push_all_names, push_lanes, push_step_numbers};
use crate::page::{begin_page, page_of, push_title};
use mp_joint::PlanStep;
use mp_list::{List, OutOfMemory};
use mp_messages::Bytes;
use std::alloc::Global;

/// Appends the title, the lanes and the numbers of the steps.
fn push_frame(
    out: &mut Bytes,
    cost: u64,
    actions: usize,
    columns: &[Column],
    agents: u16,
) -> Result<(), OutOfMemory> {
    let page = page_of(columns, agents);
    begin_page(out, page)?;
    push_title(out, cost, actions, columns.len())?;
    push_lanes(out, page.width, agents)?;
    push_all_names(out, columns, agents)?;
    push_step_numbers(out, columns, agents)
}

/// Appends the picture, whose steps stand in these columns.
fn push_picture(
    alloc: Global,
    out: &mut Bytes,
    plan: &[PlanStep],
    cost: u64,
    columns: &[Column],
    steps: &[List<u64>],
    chain: &[u64],
    agents: u16,
) -> Result<(), OutOfMemory> {
    push_frame(out, cost, plan.len(), columns, agents)?;
    push_chain(out, plan, columns, chain)?;
    push_boxes(alloc, out, plan, columns, steps, chain)?;
    out.extend_from_slice(b"</svg>\n")
}

/// The picture of a plan of this cost, with the times of its concurrent steps and of its chain.
pub(crate) fn picture_of(
    alloc: Global,
    plan: &[PlanStep],
    cost: u64,
    steps: &[List<u64>],
    chain: &[u64],
    agents: u16,
) -> Result<Bytes, OutOfMemory> {
    let columns = columns_of(alloc, plan, steps)?;
    let mut out = List::new(alloc);
    push_picture(
        alloc,
        &mut out,
        plan,
        cost,
        columns.as_slice(),
        steps,
        chain,
        agents,
    )?;
    Ok(out)
}
