//! One agent that a worker serves.

ghost use Rattle.std.specs.Prelude.{◌≡◌, [], length, not};
ghost use Rattle.mp_machine.specs.AgentRecord.{is_going};
ghost use Rattle.mp_nodes.specs.Nodes.{has_ended, orders};

use mp_machine::{Ending, Machine};
use mp_post::Batch;
use mp_sets::Agent;
use mp_task::Heuristic;
use std::alloc::Global;
use std::marker::Model;

/// The greatest number of agents.
const AGENTS: usize = 16;

/// An agent's machine and what it did since it last signed. Contracts see it as these two.
pub struct Node<H: Heuristic> {
    pub(crate) alloc: Global,
    pub(crate) me: Agent,
    pub(crate) machine: Machine<H>,
    pub(crate) batch: Batch,
    /// For each agent how many messages its post had counted when none waited there for this one; at first a number that is
    /// none yet, so that each post is looked at once.
    pub(crate) counts: [u64; AGENTS],
    /// How many times it passed over a post at which it knew of no message; at 256 it begins anew.
    pub(crate) passed_over: u8,
}

impl<H: Heuristic> Drop for Node<H> {
    fn drop(self) {
        let Node {
            alloc: _,
            me: _,
            machine: _,
            batch: _,
            counts: _,
            passed_over: _,
        } = self;
    }
}

impl<H: Heuristic> Model for Node<H> {
    ghost use Rattle.std.specs.Prelude.{◌≡◌};
    ghost use Rattle.mp_nodes.specs.Nodes.{SeenNode};

    ghost Value = { SeenNode };

    ghost use Rattle.std.specs.Coded.{codes};
    ghost use Rattle.mp_search.specs.StateKeys.{coded_numbers};

    ghost coded = { Prim.hlevel (codes, coded_numbers) };

    ghost view = { λ n. record { machine = n.machine; batch = n.batch } };

    ghost invariant = { λ n. n.machine.done.task.me ≡ n.me };
}

/// Whether a machine goes on.
fn is_going<H: Heuristic>(machine: &Machine<H>) -> bool
    ensures { result ≡ is_going machine.now.done.ending }
{
    match machine.ending() {
        Ending::Going => true,
        _ => false,
    }
}

impl<H: Heuristic> Node<H> {
    /// A node whose machine has done nothing that is not signed. The agent is the machine's.
    pub fn new(alloc: Global, me: Agent, machine: Machine<H>) -> Node<H>
        requires { machine.done.task.me ≡ me }
        ensures { result ≡ record { machine = machine; batch = [] } }
    {
        Node {
            alloc,
            me,
            machine,
            batch: Batch::new(alloc),
            counts: [u64::MAX; AGENTS],
            passed_over: 0,
        }
    }

    /// The machine, for whoever has no more use for the node.
    pub fn into_machine(self) -> Machine<H>
        ensures { result ≡ self.machine }
    {
        let Node {
            alloc: _,
            me: _,
            machine,
            batch: _,
            counts: _,
            passed_over: _,
        } = self;
        machine
    }

    /// Its agent.
    pub fn me(&self) -> Agent
        ensures { result ≡ self.now.machine.done.task.me }
    {
        self.me
    }

    /// Whether its agent has ended, and all that it did is signed.
    pub fn has_ended(&self) -> bool
        ensures { result ≡ has_ended self.now }
    {
        !is_going(&self.machine) && self.batch.len() == 0
    }
}
