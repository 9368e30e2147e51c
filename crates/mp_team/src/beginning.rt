//! A team at the start.

ghost use Rattle.std.specs.Prelude.{◌≡◌, ◌≤◌, length, map, IfOk};
ghost use Rattle.std.specs.List.{range_with_len};
ghost use Rattle.mp_post_rule.specs.Table.{ArePosts};
ghost use Rattle.mp_schedule.specs.Machines.{AreNew};
ghost use Rattle.mp_team.specs.Machines.{first_places};
ghost use Rattle.mp_team.specs.Works.{IsWork};

use crate::sharing::agent_at;
use crate::work::Work;
use mp_list::OutOfMemory;
use mp_machine::Machine;
use mp_nodes::{Node, Nodes};
use mp_post::{Posts, make};
use mp_task::Heuristic;
use std::alloc::Global;

/// A node for each machine.
fn nodes_of<H: Heuristic>(alloc: Global, machines: Vec<Machine<H>>) -> Result<Nodes<H>, OutOfMemory>
    requires numbered { map (λ m. m.done.task.me) machines.items ≡ range_with_len 1 (length machines.items) }
    requires at_most { length machines.items ≤ 16 }
    ensures { IfOk result (λ nodes. nodes ≡ first_places machines.items) }
{
    let mut nodes = Nodes::new(alloc, machines.len())?;
    let mut at = 0;
    for machine in machines {
        nodes.put(at, Some(Node::new(alloc, agent_at(at), machine)));
        at += 1;
    }
    Ok(nodes)
}

/// The posts of a team, and a work for all its agents.
pub(crate) fn begun<H: Heuristic>(
    alloc: Global,
    machines: Vec<Machine<H>>,
) -> Result<(Posts, Work<H>), OutOfMemory>
    requires { AreNew H.value machines.items }
    ensures posts { IfOk result (λ r. ArePosts r.0.shared.table_id r.0.shared.key
        × (r.0.shared.key ≡ length machines.items)) }
    ensures work { IfOk result (λ r. IsWork H.value r.0.shared.table_id r.0.shared.key r.1) }
    ensures nodes { IfOk result (λ r. r.1.nodes ≡ first_places machines.items) }
{
    let count = machines.len() as u16;
    let nodes = nodes_of(alloc, machines)?;
    let (posts, desk) = make(alloc, count)?;
    Ok((posts, Work { nodes, desk }))
}
