//! The agents that a worker serves.

ghost use Rattle.std.specs.Prelude.{◌≡◌, ◌<◌, length, replicate, slice_index_or, slice_set, None, Some, IfOk};
ghost use Rattle.mp_nodes.specs.Nodes.{has_ended, have_ended};
ghost use Rattle.std.specs.Option.{option_map_or};
ghost use Rattle.std.specs.Prelude.{true};

use crate::node::Node;
use mp_list::OutOfMemory;
use mp_task::Heuristic;
use std::alloc::Global;
use std::marker::Model;

/// A place for each agent of a team, with its node where the worker serves it. Contracts see it as the list of these places,
/// that of agent 1 first.
#[derive(Drop)]
pub struct Nodes<H: Heuristic> {
    pub(crate) places: Vec<Option<Node<H>>>,
}

impl<H: Heuristic> Model for Nodes<H> {
    ghost use Rattle.std.specs.Prelude.{List, Option};
    ghost use Rattle.mp_nodes.specs.Nodes.{SeenNode};

    ghost Value = { List (Option SeenNode) };

    ghost use Rattle.std.specs.Coded.{codes};
    ghost use Rattle.mp_search.specs.StateKeys.{coded_numbers};

    ghost coded = { Prim.hlevel (codes, coded_numbers) };

    ghost view = { λ n. n.places.items };
}

/// Whether the agent of a place has ended and signed all, where there is one.
fn place_has_ended<H: Heuristic>(place: &Option<Node<H>>) -> bool
    ensures { result ≡ option_map_or has_ended place.now true }
{
    match place {
        Some(node) => node.has_ended(),
        None => true,
    }
}

impl<H: Heuristic> Nodes<H> {
    /// An empty place for each of so many agents. Refuses only for want of memory.
    pub fn new(alloc: Global, agents: usize) -> Result<Nodes<H>, OutOfMemory>
        ensures { IfOk result (λ nodes. nodes ≡ replicate agents None) }
    {
        let mut places = Vec::with_capacity(alloc, agents)?;
        for _ in 0..agents {
            places.push(None)?;
        }
        Ok(Nodes { places })
    }

    /// The number of places.
    pub fn len(&self) -> usize
        ensures { result ≡ length self.now }
    {
        self.places.len()
    }

    /// Puts what is there into a place, which counts from 0. What was there is gone.
    pub fn put(&mut self, at: usize, node: Option<Node<H>>)
        requires { at < length self.old }
        ensures { self.new ≡ slice_set self.old at node }
    {
        self.places[at] = node;
    }

    /// Takes what is in a place, which counts from 0, and leaves the place empty.
    pub fn take(&mut self, at: usize) -> Option<Node<H>>
        requires { at < length self.old }
        ensures node { result ≡ slice_index_or self.old at None }
        ensures left { self.new ≡ slice_set self.old at None }
    {
        std::mem::replace(&mut self.places[at], None)
    }

    /// Whether all its agents have ended, and all that they did is signed.
    pub fn have_ended(&self) -> bool
        ensures { result ≡ have_ended self.now }
    {
        for place in self.places.as_slice() {
            if !place_has_ended(place) {
                return false;
            }
        }
        true
    }
}
