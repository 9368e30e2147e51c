//! The machines of a team, and their turns.

ghost use Rattle.std.specs.Prelude.{◌≡◌, ◌≤◌, [], All, IfOk};
ghost use Rattle.mp_schedule.specs.Machines.{new_machine};
ghost use Rattle.mp_schedule.specs.TeamRun.{start_run};
ghost use Rattle.mp_solve.specs.Ended.{HasDoneAll, HasEnded};
ghost use Rattle.mp_solve.specs.Machines.{MayBegin, new_machines};
ghost use Rattle.mp_task.specs.Limits.{IsWithinLimits};
ghost use Rattle.mp_world.specs.Team.{most_expansions, team_with};

use mp_list::OutOfMemory;
use mp_machine::Machine;
use mp_schedule::World;
use mp_task::{Heuristic, Task, TaskList};
use std::alloc::Global;

/// A new machine for a task.
fn machine_of<H: Heuristic>(
    alloc: Global,
    task: Task,
    limit: u64,
) -> Result<Machine<H>, OutOfMemory>
    requires from_1 { 1 ≤ limit }
    requires limit { limit ≤ most_expansions }
    ensures { IfOk result (λ made. made ≡ new_machine H.value limit task) }
{
    let heuristic = H::make(alloc, &task)?;
    Machine::new(alloc, task, heuristic, limit)
}

/// A new machine for each task, with this limit of entries that it may expand. Refuses only for want of memory.
pub fn machines_of<H: Heuristic>(
    alloc: Global,
    tasks: TaskList,
    limit: u64,
) -> Result<Vec<Machine<H>>, OutOfMemory>
    requires from_1 { 1 ≤ limit }
    requires limit { limit ≤ most_expansions }
    ensures { IfOk result (λ machines. machines.items ≡ new_machines H.value limit tasks) }
{
    let mut machines = Vec::with_capacity(alloc, tasks.len())?;
    for task in tasks.into_items() {
        machines.push(machine_of(alloc, task, limit)?)?;
    }
    Ok(machines)
}

/// A task is within the limits of the program.
fn is_within_limits(task: &Task)
    ensures { IsWithinLimits task.now }
{
    let _ = &task.met;
}

/// All tasks are within the limits of the program.
pub fn are_within_limits(tasks: &[Task])
    ensures { All IsWithinLimits tasks.now }
{
    for task in tasks {
        is_within_limits(task);
    }
}

/// A team of agents with these tasks, before they have done anything. Refuses only for want of memory.
pub(crate) fn begun<H: Heuristic>(
    alloc: Global,
    tasks: TaskList,
    limit: u64,
) -> Result<World<H>, OutOfMemory>
    requires { MayBegin limit tasks }
    ensures start { IfOk result (λ world. world ≡ start_run H.value limit tasks) }
    ensures team { IfOk result (HasDoneAll (team_with H.value limit tasks) []) }
{
    are_within_limits(tasks.as_slice());
    let machines = machines_of(alloc, tasks, limit)?;
    let world = World::new(alloc, machines)?;
    world.comes_from_a_run();
    Ok(world)
}

/// The agents with these tasks, 1 to 16 that agree, take turns until all have ended. Each may expand `limit` entries, from 1 to
/// 10,000,000. Refuses only for want of memory.
pub fn ended<H: Heuristic>(
    alloc: Global,
    tasks: TaskList,
    limit: u64,
) -> Result<World<H>, OutOfMemory>
    requires { MayBegin limit tasks }
    ensures { IfOk result (HasEnded (team_with H.value limit tasks)) }
{
    let mut world = begun(alloc, tasks, limit)?;
    world.round_robin()?;
    world.comes_from_a_run();
    Ok(world)
}
