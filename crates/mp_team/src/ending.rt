//! A team whose agents have all ended.

ghost use Rattle.std.specs.Prelude.{◌≡◌, ◌++◌, List, [], ◌∷◌, IfOk, OnOk, false};
ghost use Rattle.mp_machine.specs.Machine.{AgentMachine};
ghost use Rattle.mp_post_rule.specs.Table.{ArePosts};
ghost use Rattle.mp_schedule.specs.Machines.{limit_of, tasks_of};
ghost use Rattle.mp_team.specs.Finished.{HasFinished};
ghost use Rattle.mp_team.specs.Machines.{machines_in};
ghost use Rattle.mp_team.specs.Works.{AreAllAnswered, lacks_memory};

use crate::work::{Answered, Work, is_ended};
use mp_list::OutOfMemory;
use mp_logs::parts_make_a_log;
use mp_machine::Machine;
use mp_messages::Log;
use mp_nodes::{Node, Nodes};
use mp_post::Posts;
use mp_task::Heuristic;
use mp_team_verdicts::no_receipt_is_bad;
use std::alloc::Global;

/// The machines of a team whose agents have all ended, that of agent 1 first, and the log of what they did.
#[derive(Drop)]
pub struct Finished<H: Heuristic> {
    /// The machines.
    pub machines: Vec<Machine<H>>,
    /// The log.
    pub log: Log,
}

/// Another machine, if there is a node.
fn push<H: Heuristic>(
    machines: &mut Vec<Machine<H>>,
    node: Option<Node<H>>,
) -> Result<(), OutOfMemory>
    ensures { OnOk result (machines.new.items ≡ machines.old.items ++ machines_in (node ∷ [])) }
{
    if let Some(node) = node {
        machines.push(node.into_machine())?;
    }
    Ok(())
}

/// The machines of the places that are not empty.
fn machines_of<H: Heuristic>(
    alloc: Global,
    mut nodes: Nodes<H>,
) -> Result<Vec<Machine<H>>, OutOfMemory>
    ensures { IfOk result (λ machines. machines.items ≡ machines_in nodes) }
{
    let count = nodes.len();
    let mut machines = Vec::with_capacity(alloc, count)?;
    for at in 0..count {
        let node = nodes.take(at);
        push(&mut machines, node)?;
    }
    Ok(machines)
}

/// The machines and the log of a team whose agents were all served, and for none of whom memory ran out. They have all ended: no
/// message is a bad one, and so nobody was halted.
pub(crate) fn closed<H: Heuristic>(
    alloc: Global,
    posts: Posts,
    answered: Answered<H>,
) -> Result<Finished<H>, OutOfMemory>
    requires posts { ArePosts posts.shared.table_id posts.shared.key }
    requires all { (machines : List AgentMachine)
        × AreAllAnswered H.value posts.shared.table_id posts.shared.key machines answered }
    requires enough { lacks_memory answered.served ≡ false }
    ensures { IfOk result (λ f. (machines : List AgentMachine)
        → AreAllAnswered H.value posts.shared.table_id posts.shared.key machines answered
        → HasFinished H.value (limit_of machines) (tasks_of machines) f) }
{
    parts_make_a_log();
    no_receipt_is_bad();
    let Answered { work, served } = answered;
    let Work { nodes, desk } = work;
    let machines = machines_of(alloc, nodes)?;
    let log = desk.into_log(&posts)?;
    if !is_ended(served) {
        unreachable!()
    }
    Ok(Finished { machines, log })
}
