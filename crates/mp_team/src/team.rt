//! A team whose agents are served by workers.

ghost use Rattle.std.specs.Prelude.{◌≡◌, ◌≤◌, ◌∷◌, All, length, IfOk};
ghost use Rattle.mp_post_rule.specs.Table.{ArePosts};
ghost use Rattle.mp_schedule.specs.Machines.{AreNew, limit_of, tasks_of};
ghost use Rattle.mp_team.specs.Finished.{HasFinished};
ghost use Rattle.mp_team.specs.Works.{AreAnswered, IsWork, nodes_of};

use crate::beginning::begun;
use crate::ending::{Finished, closed};
use crate::sharing::shared_out;
use crate::work::{Answered, Work, lacks_memory};
use crate::workers::all_served;
use mp_list::OutOfMemory;
use mp_machine::Machine;
use mp_outside::Gate;
use mp_post::Posts;
use mp_task::Heuristic;
use std::alloc::Global;
use std::sync::Wait;
use std::sync::atomic::AtomicBool;
use std::thread::{Threads, scope, scope_env};

/// A flag for each of so many workers, to note that it could not be started.
fn flags(alloc: Global, count: usize) -> Result<Vec<AtomicBool>, OutOfMemory>
    ensures { IfOk result (λ flags. length flags.items ≡ count) }
{
    let mut flags = Vec::with_capacity(alloc, count)?;
    for _ in 0..count {
        flags.push(AtomicBool::new(false))?;
    }
    Ok(flags)
}

/// Serves some works, each of the others by a worker of its own if one can be started.
fn in_threads<R: Threads + Wait + Sync, H: Heuristic + Send, G: Gate + Sync>(
    rt: &R,
    posts: &Posts,
    work: Work<H>,
    others: Vec<Work<H>>,
    gate: &G,
    unstarted: &[AtomicBool],
) -> Answered<H>
    requires posts { ArePosts posts.now.shared.table_id posts.now.shared.key }
    requires work { IsWork H.value posts.now.shared.table_id posts.now.shared.key work }
    requires others { All (IsWork H.value posts.now.shared.table_id posts.now.shared.key) others.items }
    requires flags { length others.items ≤ length unstarted.now }
    ensures { AreAnswered H.value posts.now.shared.table_id posts.now.shared.key (nodes_of (work ∷ others.items)) result }
{
    scope(
        scope_env(),
        rt,
        |at| -> Answered<H>
            requires { ArePosts posts.now.shared.table_id posts.now.shared.key
                × IsWork H.value posts.now.shared.table_id posts.now.shared.key work
                × All (IsWork H.value posts.now.shared.table_id posts.now.shared.key) others.items
                × (length others.items ≤ length unstarted.now) }
            ensures { AreAnswered H.value posts.entry.now.shared.table_id posts.entry.now.shared.key
                (nodes_of (work ∷ others.items)) result }
        { all_served(at, rt, posts, work, others, gate, unstarted) },
    )
}

/// The agents of a team go on until all have ended, each served by one of some workers: agent i by worker
/// ((i - 1) mod workers) + 1. The caller is worker 1. A worker without an agent is not started, and one that cannot be started
/// is served by the caller. Refuses only for want of memory.
///
/// It waits, so its promise holds if it returns.
pub fn solve<R: Threads + Wait + Sync, H: Heuristic + Send, G: Gate + Sync>(
    rt: &R,
    alloc: Global,
    machines: Vec<Machine<H>>,
    workers: u16,
    gate: &G,
) -> Result<Finished<H>, OutOfMemory>
    requires machines { AreNew H.value machines.items }
    requires workers { (1 ≤ workers) × (workers ≤ 16) }
    ensures { IfOk result (HasFinished H.value (limit_of machines.items) (tasks_of machines.items)) }
{
    let (posts, mut work) = begun(alloc, machines)?;
    let others = shared_out(rt, alloc, &posts, &mut work, usize::from(workers))?;
    let unstarted = flags(alloc, others.len())?;
    let answered = in_threads(rt, &posts, work, others, gate, unstarted.as_slice());
    if lacks_memory(answered.served) {
        return Err(OutOfMemory);
    }
    closed(alloc, posts, answered)
}
