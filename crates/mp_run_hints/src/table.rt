//! A table with a row for each agent: what it expanded, kept, sent, took, and how often it asked its heuristic.

use crate::traffic::{Traffic, traffic_of};
use itoa::Buffer;
use mp_counted::Count;
use mp_list::OutOfMemory;
use mp_machine::Machine;
use mp_messages::{Bytes, Log};
use mp_sets::Agent;
use mp_task::Heuristic;

/// How wide a column of the table is.
const WIDTH: usize = 11;

/// What stands above the rows.
const HEADING: &str =
    "agent   expanded    entries       sent   received      bytes     values  snapshots\n";

/// Appends blanks in place of what a number of so many digits leaves free in its column, at least one.
fn push_blanks(text: &mut Bytes, digits: usize) -> Result<(), OutOfMemory> {
    text.extend_from_slice(b" ")?;
    for _ in digits..WIDTH - 1 {
        text.extend_from_slice(b" ")?;
    }
    Ok(())
}

/// Appends a number at the right of its column.
fn push_cell(text: &mut Bytes, number: u64) -> Result<(), OutOfMemory> {
    let mut buffer = Buffer::new();
    let digits = buffer.format(number).as_bytes();
    push_blanks(text, digits.len())?;
    text.extend_from_slice(digits)
}

/// Appends the number of an agent, as wide as the word above it.
fn push_agent(text: &mut Bytes, number: u64) -> Result<(), OutOfMemory> {
    let mut buffer = Buffer::new();
    let digits = buffer.format(number).as_bytes();
    for _ in digits.len()..5 {
        text.extend_from_slice(b" ")?;
    }
    text.extend_from_slice(digits)
}

/// Appends what an agent sent and took.
fn push_traffic(text: &mut Bytes, traffic: Traffic) -> Result<(), OutOfMemory> {
    push_cell(text, traffic.sent)?;
    push_cell(text, traffic.received)?;
    push_cell(text, traffic.bytes)
}

/// How often a heuristic was asked, by the count at a place.
fn values_at(counts: &[Count], place: usize) -> u64 {
    match counts.get(place) {
        Some(count) => count.get(),
        None => 0,
    }
}

/// Appends the row of an agent.
fn push_row<H: Heuristic>(
    text: &mut Bytes,
    agent: Agent,
    machine: &Machine<H>,
    log: &Log,
    values: u64,
) -> Result<(), OutOfMemory> {
    let traffic = traffic_of(agent, log);
    push_agent(text, u64::from(agent.number()))?;
    push_cell(text, machine.expanded())?;
    push_cell(text, machine.search().store().count())?;
    push_traffic(text, traffic)?;
    push_cell(text, values)?;
    push_cell(text, traffic.snapshots)?;
    text.extend_from_slice(b"\n")
}

/// Appends the row of the agent at a place, where there is such an agent.
fn push_row_at<H: Heuristic>(
    text: &mut Bytes,
    place: usize,
    machine: &Machine<H>,
    log: &Log,
    counts: &[Count],
) -> Result<(), OutOfMemory> {
    let Ok(before) = u16::try_from(place) else {
        return Ok(());
    };
    match Agent::new(before.saturating_add(1)) {
        Some(agent) => push_row(text, agent, machine, log, values_at(counts, place)),
        None => Ok(()),
    }
}

/// Appends the table of a team: a row for each of these machines.
pub(crate) fn push_table<H: Heuristic>(
    text: &mut Bytes,
    machines: &[Machine<H>],
    log: &Log,
    counts: &[Count],
) -> Result<(), OutOfMemory> {
    text.extend_from_slice(HEADING.as_bytes())?;
    for (place, machine) in machines.iter().enumerate() {
        push_row_at(text, place, machine, log, counts)?;
    }
    Ok(())
}
