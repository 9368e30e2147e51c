//! The machines of a team, whose heuristics are counted.

ghost use Rattle.std.specs.Prelude.{◌≡◌, ◌≤◌, map, IfOk};
ghost use Rattle.mp_schedule.specs.Machines.{new_machine};
ghost use Rattle.mp_world.specs.Team.{most_expansions};

use crate::counted::{Count, Counted, with_count};
use mp_list::OutOfMemory;
use mp_machine::Machine;
use mp_task::{Heuristic, Task, TaskList};
use std::alloc::Global;
use std::cell::Cell;
use std::rc::Rc;

/// A new count, of which a copy is noted behind the others.
fn noted_count(alloc: Global, counts: &mut Vec<Count>) -> Result<Count, OutOfMemory> {
    let count = Rc::new(alloc, Cell::new(0))?;
    counts.push(count.clone()?)?;
    Ok(count)
}

/// A new machine for a task, whose heuristic tells a count that is noted behind the others.
fn counted_machine<H: Heuristic>(
    alloc: Global,
    task: Task,
    limit: u64,
    counts: &mut Vec<Count>,
) -> Result<Machine<Counted<H>>, OutOfMemory>
    requires from_1 { 1 ≤ limit }
    requires limit { limit ≤ most_expansions }
    ensures { IfOk result (λ made. made ≡ new_machine H.value limit task) }
{
    let count = noted_count(alloc, counts)?;
    let heuristic = with_count::<H>(alloc, &task, count)?;
    Machine::new(alloc, task, heuristic, limit)
}

/// A new machine for each task, with this limit of entries that it may expand, and behind the others a count for each of how
/// often its heuristic is asked. Refuses only for want of memory.
pub fn counted_machines<H: Heuristic>(
    alloc: Global,
    tasks: TaskList,
    limit: u64,
    counts: &mut Vec<Count>,
) -> Result<Vec<Machine<Counted<H>>>, OutOfMemory>
    requires from_1 { 1 ≤ limit }
    requires limit { limit ≤ most_expansions }
    ensures { IfOk result (λ machines. machines.items ≡ map (new_machine H.value limit) tasks) }
{
    let mut machines = Vec::with_capacity(alloc, tasks.len())?;
    for task in tasks.into_items() {
        machines.push(counted_machine::<H>(alloc, task, limit, counts)?)?;
    }
    Ok(machines)
}
