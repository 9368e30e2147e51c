//! The agent of a script at its start.

use crate::tasks::task;
use crate::teams::{TASKS, TaskRow};
use mp_list::OutOfMemory;
use mp_machine::Machine;
use mp_task::Blind;
use std::alloc::Global;

/// The row of a task by its name.
pub(crate) fn row(name: &str) -> Option<&'static TaskRow> {
    for row in &TASKS {
        if row.name == name {
            return Some(row);
        }
    }
    None
}

/// The agent of a row, with a limit from 1 to 10,000,000.
pub(crate) fn row_machine(
    alloc: Global,
    row: &TaskRow,
    limit: u64,
) -> Result<Option<Machine<Blind>>, OutOfMemory> {
    if limit < 1 || limit > 10_000_000 {
        return Ok(None);
    }
    match task(alloc, row)? {
        Some(task) => Ok(Some(Machine::new(alloc, task, Blind, limit)?)),
        None => Ok(None),
    }
}

/// The agent of a name, with a limit from 1 to 10,000,000.
pub(crate) fn machine(
    alloc: Global,
    name: &str,
    limit: u64,
) -> Result<Option<Machine<Blind>>, OutOfMemory> {
    match row(name) {
        Some(row) => row_machine(alloc, row, limit),
        None => Ok(None),
    }
}
