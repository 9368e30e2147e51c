//! What a worker does: each of its agents has its turn, one after another, until all have ended.

ghost use Rattle.std.specs.Prelude.{◌≡◌, ◌≢◌, ◌<◌, ◌+◌, ℕ, Some, length};
ghost use Rattle.mp_nodes.specs.Nodes.{AreSameAgents, AreServed, IsNodeAt, IsPlaceAt};
ghost use Rattle.mp_nodes.specs.Served.{Answers, IsAnswer, IsRound, PlaceGoesOn};
ghost use Rattle.mp_nodes.specs.Steps.{GoesOn, IsReady};
ghost use Rattle.mp_post.specs.Desks.{HoldsParty, IsDeskOf};
ghost use Rattle.mp_post_rule.specs.Table.{ArePosts};
ghost use Rattle.mp_post_rule.specs.Views.{party_at};

use crate::node::Node;
use crate::nodes::Nodes;
use crate::served::{Served, Stop};
use crossbeam_utils::Backoff;
use mp_outside::Gate;
use mp_post::{Desk, Posts};
use mp_sets::Agent;
use mp_task::Heuristic;
use std::sync::Wait;

impl<H: Heuristic> Node<H> {
    /// Expands once if it may, then agent 1 starts a snapshot if it may, and it signs what others wait for, after this was
    /// done: whether anything was.
    fn act_and_sign<R: Wait, G: Gate>(
        &mut self,
        rt: &R,
        posts: &Posts,
        desk: &mut Desk,
        did: bool,
        gate: &G,
    ) -> Result<bool, Stop>
        requires posts { ArePosts posts.now.shared.table_id posts.now.shared.key }
        requires ready { IsReady H.value posts.now.shared.table_id posts.now.shared.key self.old desk.old }
        ensures { GoesOn H.value posts.now.shared.table_id posts.now.shared.key self.old desk.old result self.new desk.new }
    {
        match self.act_alone(gate) {
            Ok(acted) => self.sign_after(rt, posts, desk, did || acted, gate),
            Err(stop) => Err(stop),
        }
    }

    /// Has its turn: it takes what there is from each other agent, by rising number, then expands once if it may, then agent 1
    /// starts a snapshot if it may; and it signs what others wait for. Whether it did anything.
    fn has_turn<R: Wait, G: Gate>(
        &mut self,
        rt: &R,
        posts: &Posts,
        desk: &mut Desk,
        agents: u16,
        gate: &G,
    ) -> Result<bool, Stop>
        requires posts { ArePosts posts.now.shared.table_id posts.now.shared.key }
        requires ready { IsReady H.value posts.now.shared.table_id posts.now.shared.key self.old desk.old }
        requires agents { agents ≡ posts.now.shared.key }
        ensures { GoesOn H.value posts.now.shared.table_id posts.now.shared.key self.old desk.old result self.new desk.new }
    {
        match self.take_from_others(rt, posts, desk, agents, gate) {
            Ok(took) => self.act_and_sign(rt, posts, desk, took, gate),
            Err(stop) => Err(stop),
        }
    }
}

/// What a worker answers where its agent does not go on. Unless that is since another worker's agent was halted, this one is.
fn answered<R: Wait>(rt: &R, posts: &Posts, desk: &mut Desk, agent: Agent, stop: Stop) -> Served
    requires posts { ArePosts posts.now.shared.table_id posts.now.shared.key }
    requires desk { IsDeskOf posts.now.shared.table_id posts.now.shared.key desk.old }
    requires held { HoldsParty agent desk.old.view }
    ensures desk { IsDeskOf posts.now.shared.table_id posts.now.shared.key desk.new }
    ensures answer { Answers posts.now.shared.key agent stop result desk.old.view desk.new.view }
    ensures others { (other : ℕ) → other ≢ agent → party_at desk.new.view other ≡ party_at desk.old.view other }
{
    match stop {
        Stop::Halted(other) => Served::Halted(other),
        Stop::Bad => {
            desk.halt(rt, posts, agent);
            Served::Bad(agent)
        }
        Stop::OutOfMemory => {
            desk.halt(rt, posts, agent);
            Served::OutOfMemory(agent)
        }
    }
}

/// An agent of the worker has its turn, unless it has ended: whether it did anything.
fn node_has_turn<R: Wait, H: Heuristic, G: Gate>(
    rt: &R,
    posts: &Posts,
    agent: Agent,
    node: &mut Node<H>,
    desk: &mut Desk,
    agents: u16,
    gate: &G,
) -> Result<bool, Served>
    requires posts { ArePosts posts.now.shared.table_id posts.now.shared.key }
    requires desk { IsDeskOf posts.now.shared.table_id posts.now.shared.key desk.old }
    requires node { IsNodeAt H.value posts.now.shared.key agent desk.old.view node.old }
    requires agents { agents ≡ posts.now.shared.key }
    ensures { PlaceGoesOn H.value posts.now.shared.table_id posts.now.shared.key agent (Some node.old) desk.old.view
        result (Some node.new) desk.new }
{
    if node.has_ended() {
        return Ok(false);
    }
    match node.has_turn(rt, posts, desk, agents, gate) {
        Ok(did) => Ok(did),
        Err(stop) => Err(answered(rt, posts, desk, agent, stop)),
    }
}

/// The agent of a place has its turn, where the worker serves it: whether it did anything.
fn place_has_turn<R: Wait, H: Heuristic, G: Gate>(
    rt: &R,
    posts: &Posts,
    agent: Agent,
    place: &mut Option<Node<H>>,
    desk: &mut Desk,
    agents: u16,
    gate: &G,
) -> Result<bool, Served>
    requires posts { ArePosts posts.now.shared.table_id posts.now.shared.key }
    requires desk { IsDeskOf posts.now.shared.table_id posts.now.shared.key desk.old }
    requires place { IsPlaceAt H.value posts.now.shared.key agent desk.old.view place.old }
    requires agents { agents ≡ posts.now.shared.key }
    ensures { PlaceGoesOn H.value posts.now.shared.table_id posts.now.shared.key agent place.old desk.old.view
        result place.new desk.new }
{
    match place {
        None => Ok(false),
        Some(node) => node_has_turn(rt, posts, agent, node, desk, agents, gate),
    }
}

/// The agent of a place, which counts from 0.
fn agent_at(place: usize) -> Agent
    requires { place < 16 }
    ensures { result ≡ place + 1 }
{
    Agent::new(place as u16 + 1).unwrap()
}

/// The agent of a place of the worker has its turn, where the worker serves it: whether it did anything.
fn turn_at<R: Wait, H: Heuristic, G: Gate>(
    rt: &R,
    posts: &Posts,
    nodes: &mut Nodes<H>,
    at: usize,
    desk: &mut Desk,
    gate: &G,
) -> Result<bool, Served>
    requires posts { ArePosts posts.now.shared.table_id posts.now.shared.key }
    requires desk { IsDeskOf posts.now.shared.table_id posts.now.shared.key desk.old }
    requires served { AreServed H.value posts.now.shared.key nodes.old desk.old.view }
    requires at { at < length nodes.old }
    ensures { IsRound H.value posts.now.shared.table_id posts.now.shared.key nodes.old result nodes.new desk.new }
{
    let agents = nodes.len() as u16;
    place_has_turn(
        rt,
        posts,
        agent_at(at),
        &mut nodes.places[at],
        desk,
        agents,
        gate,
    )
}

/// Each agent of the worker has its turn, by rising number: whether any did anything.
fn round<R: Wait, H: Heuristic, G: Gate>(
    rt: &R,
    posts: &Posts,
    nodes: &mut Nodes<H>,
    desk: &mut Desk,
    gate: &G,
) -> Result<bool, Served>
    requires posts { ArePosts posts.now.shared.table_id posts.now.shared.key }
    requires desk { IsDeskOf posts.now.shared.table_id posts.now.shared.key desk.old }
    requires served { AreServed H.value posts.now.shared.key nodes.old desk.old.view }
    ensures { IsRound H.value posts.now.shared.table_id posts.now.shared.key nodes.old result nodes.new desk.new }
{
    let mut did = false;
    for at in 0..nodes.len() {
        match turn_at(rt, posts, nodes, at, desk, gate) {
            Ok(one) => did = did || one,
            Err(served) => return Err(served),
        }
    }
    Ok(did)
}

/// Serves the agents of these nodes, whose parties the desk holds, until all have ended and what they did is signed, and then
/// answers `Ended`. Before that it answers `Halted` where it sees that an agent of another worker was halted; `Bad` where one
/// of its agents found a message to be a bad one; and `OutOfMemory` where memory ran out for one of them. In the last two cases
/// it halts that agent, and in no other any.
///
/// It waits, so its promise holds if it returns.
pub fn serve<R: Wait, H: Heuristic, G: Gate>(
    rt: &R,
    posts: &Posts,
    nodes: &mut Nodes<H>,
    desk: &mut Desk,
    gate: &G,
) -> Served
    requires posts { ArePosts posts.now.shared.table_id posts.now.shared.key }
    requires desk { IsDeskOf posts.now.shared.table_id posts.now.shared.key desk.old }
    requires served { AreServed H.value posts.now.shared.key nodes.old desk.old.view }
    ensures desk { IsDeskOf posts.now.shared.table_id posts.now.shared.key desk.new }
    ensures same { AreSameAgents nodes.old nodes.new }
    ensures answer { IsAnswer H.value posts.now.shared.key nodes.new desk.new.view result }
{
    let backoff = Backoff::new();
    for _ in rt.forever() {
        if nodes.have_ended() {
            return Served::Ended;
        }
        match round(rt, posts, nodes, desk, gate) {
            Ok(true) => backoff.reset(),
            Ok(false) => backoff.snooze(),
            Err(served) => return served,
        }
    }
    unreachable!()
}
