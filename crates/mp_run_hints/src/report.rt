//! What is told of a run behind its outcome.

use crate::bound::least_cost;
use crate::table::push_table;
use mp_counted::Count;
use mp_list::OutOfMemory;
use mp_machine::Machine;
use mp_messages::{Bytes, Log};
use mp_progress::push_number;
use mp_schedule::World;
use mp_task::Heuristic;
use mp_world::Answer;
use std::alloc::Global;

/// Appends that an agent has expanded as many entries as it may.
fn push_spent(text: &mut Bytes, number: u64, expanded: u64) -> Result<(), OutOfMemory> {
    text.extend_from_slice(b"agent ")?;
    push_number(text, number)?;
    text.extend_from_slice(b" expanded as many states as it may: ")?;
    push_number(text, expanded)?;
    text.extend_from_slice(b"\n")
}

/// Appends a line for each agent that has expanded as many entries as it may.
fn push_all_spent<H: Heuristic>(
    text: &mut Bytes,
    machines: &[Machine<H>],
) -> Result<(), OutOfMemory> {
    for (place, machine) in machines.iter().enumerate() {
        if machine.search().spent() {
            push_spent(text, (place as u64).saturating_add(1), machine.expanded())?;
        }
    }
    Ok(())
}

/// Appends the cost below which there is no plan.
fn push_bound(text: &mut Bytes, least: Option<u64>) -> Result<(), OutOfMemory> {
    match least {
        Some(cost) => {
            text.extend_from_slice(b"no plan costs less than ")?;
            push_number(text, cost)?;
            text.extend_from_slice(b"\n")
        }
        None => Ok(()),
    }
}

/// Appends which agents could not go on, and the cost below which there is no plan.
fn push_undecided<H: Heuristic>(
    alloc: Global,
    text: &mut Bytes,
    publics: u32,
    machines: &[Machine<H>],
    log: &Log,
) -> Result<(), OutOfMemory> {
    push_all_spent(text, machines)?;
    push_bound(text, least_cost(alloc, publics, machines, log)?)
}

/// Appends what is told of the run of a team, with so many public facts, behind its outcome: a table of what each agent did,
/// and, where the outcome is undecided, why.
pub(crate) fn push_report<H: Heuristic>(
    alloc: Global,
    text: &mut Bytes,
    answer: Answer,
    publics: u32,
    world: &World<H>,
    counts: &[Count],
) -> Result<(), OutOfMemory> {
    let log = world.log();
    push_table(text, world.machines(), log, counts)?;
    match answer {
        Answer::Undecided => push_undecided(alloc, text, publics, world.machines(), log),
        _ => Ok(()),
    }
}
