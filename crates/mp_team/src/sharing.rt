//! How the agents of a team are shared out to workers.

ghost use Rattle.std.specs.Prelude.{◌≡◌, ◌<◌, ◌≤◌, ◌+◌, ◌++◌, [], ◌∷◌, None, Some, All, IfOk, OnOk, length, replicate, slice_set};
ghost use Rattle.mp_post.specs.Desks.{HoldsParty, IsDeskOf};
ghost use Rattle.mp_post.specs.Parts.{HasSplit};
ghost use Rattle.mp_post_rule.specs.Table.{ArePosts};
ghost use Rattle.mp_team.specs.Works.{AreShared, IsWork, nodes_of, parts_of};

use crate::joining::joined;
use crate::work::Work;
use mp_list::OutOfMemory;
use mp_nodes::{Node, Nodes};
use mp_post::Posts;
use mp_sets::Agent;
use mp_task::Heuristic;
use std::alloc::Global;
use std::sync::Wait;

/// The agent of a place, which counts from 0.
pub(crate) fn agent_at(place: usize) -> Agent
    requires { place < 16 }
    ensures { result ≡ place + 1 }
{
    Agent::new(place as u16 + 1).unwrap()
}

/// A work for one agent, whose node was taken from another work, where its party still is.
fn split_off<R: Wait, H: Heuristic>(
    rt: &R,
    alloc: Global,
    posts: &Posts,
    work: &mut Work<H>,
    at: usize,
    node: Node<H>,
) -> Result<Work<H>, OutOfMemory>
    requires posts { ArePosts posts.now.shared.table_id posts.now.shared.key }
    requires desk { IsDeskOf posts.now.shared.table_id posts.now.shared.key work.old.desk }
    requires held { HoldsParty (at + 1) work.old.desk.view }
    requires at { at < length work.old.nodes }
    requires many { length work.old.nodes ≡ posts.now.shared.key }
    ensures desk { IfOk result (λ part. IsDeskOf posts.now.shared.table_id posts.now.shared.key work.new.desk) }
    ensures part { IfOk result (λ part. IsDeskOf posts.now.shared.table_id posts.now.shared.key part.desk) }
    ensures split { IfOk result (λ part. HasSplit (at + 1) work.old.desk.view work.new.desk.view part.desk.view) }
    ensures nodes { IfOk result (λ part. part.nodes ≡ slice_set (replicate (length work.old.nodes) None) at (Some node)) }
    ensures others { IfOk result (λ part. work.new.nodes ≡ work.old.nodes) }
{
    let mut nodes = Nodes::new(alloc, work.nodes.len())?;
    let desk = work.desk.split(rt, posts, agent_at(at))?;
    nodes.put(at, Some(node));
    Ok(Work { nodes, desk })
}

/// The agent of a place goes to a work of its own, if it is in this one.
fn part_of<R: Wait, H: Heuristic>(
    rt: &R,
    alloc: Global,
    posts: &Posts,
    work: &mut Work<H>,
    at: usize,
) -> Result<Option<Work<H>>, OutOfMemory>
    requires posts { ArePosts posts.now.shared.table_id posts.now.shared.key }
    requires work { IsWork H.value posts.now.shared.table_id posts.now.shared.key work.old }
    requires at { at < length work.old.nodes }
    ensures { IfOk result (λ part. AreShared H.value posts.now.shared.table_id posts.now.shared.key
        (work.old.nodes ∷ []) (work.new ∷ parts_of part)) }
{
    match work.nodes.take(at) {
        None => Ok(None),
        Some(node) => match split_off(rt, alloc, posts, work, at, node) {
            Ok(part) => Ok(Some(part)),
            Err(refused) => Err(refused),
        },
    }
}

/// One work in place of two, if there are two.
fn gathered<R: Wait, H: Heuristic>(
    rt: &R,
    posts: &Posts,
    work: Option<Work<H>>,
    part: Option<Work<H>>,
) -> Option<Work<H>>
    requires posts { ArePosts posts.now.shared.table_id posts.now.shared.key }
    requires work { All (IsWork H.value posts.now.shared.table_id posts.now.shared.key) (parts_of work) }
    requires part { All (IsWork H.value posts.now.shared.table_id posts.now.shared.key) (parts_of part) }
    ensures { AreShared H.value posts.now.shared.table_id posts.now.shared.key
        (nodes_of (parts_of part ++ parts_of work)) (parts_of result) }
{
    match work {
        None => part,
        Some(work) => match part {
            None => Some(work),
            Some(part) => Some(joined(rt, posts, work, part)),
        },
    }
}

/// The agent of a place goes from one work to another, which may be none yet.
fn one_more<R: Wait, H: Heuristic>(
    rt: &R,
    alloc: Global,
    posts: &Posts,
    from: &mut Work<H>,
    at: usize,
    work: Option<Work<H>>,
) -> Result<Option<Work<H>>, OutOfMemory>
    requires posts { ArePosts posts.now.shared.table_id posts.now.shared.key }
    requires from { IsWork H.value posts.now.shared.table_id posts.now.shared.key from.old }
    requires work { All (IsWork H.value posts.now.shared.table_id posts.now.shared.key) (parts_of work) }
    requires at { at < length from.old.nodes }
    ensures { IfOk result (λ more. AreShared H.value posts.now.shared.table_id posts.now.shared.key
        (nodes_of (from.old ∷ parts_of work)) (from.new ∷ parts_of more)) }
{
    match part_of(rt, alloc, posts, from, at) {
        Ok(part) => Ok(gathered(rt, posts, work, part)),
        Err(refused) => Err(refused),
    }
}

/// The agents of a worker, the first of which is numbered 0, go to a work of its own, if there are any.
fn work_of<R: Wait, H: Heuristic>(
    rt: &R,
    alloc: Global,
    posts: &Posts,
    from: &mut Work<H>,
    worker: usize,
    workers: usize,
) -> Result<Option<Work<H>>, OutOfMemory>
    requires posts { ArePosts posts.now.shared.table_id posts.now.shared.key }
    requires from { IsWork H.value posts.now.shared.table_id posts.now.shared.key from.old }
    requires workers { 1 ≤ workers }
    ensures { IfOk result (λ work. AreShared H.value posts.now.shared.table_id posts.now.shared.key
        (from.old.nodes ∷ []) (from.new ∷ parts_of work)) }
{
    let mut work = None;
    let count = from.nodes.len();
    for at in 0..count {
        if at % workers == worker {
            work = one_more(rt, alloc, posts, from, at, work)?;
        }
    }
    Ok(work)
}

/// Another work, if there is one.
fn push<H: Heuristic>(works: &mut Vec<Work<H>>, work: Option<Work<H>>) -> Result<(), OutOfMemory>
    ensures { OnOk result (works.new.items ≡ works.old.items ++ parts_of work) }
{
    if let Some(work) = work {
        works.push(work)?;
    }
    Ok(())
}

/// The agents of a team are shared out to so many workers: what each but the first, who keeps the rest, has to do.
pub(crate) fn shared_out<R: Wait, H: Heuristic>(
    rt: &R,
    alloc: Global,
    posts: &Posts,
    from: &mut Work<H>,
    workers: usize,
) -> Result<Vec<Work<H>>, OutOfMemory>
    requires posts { ArePosts posts.now.shared.table_id posts.now.shared.key }
    requires from { IsWork H.value posts.now.shared.table_id posts.now.shared.key from.old }
    requires workers { 1 ≤ workers }
    ensures { IfOk result (λ others. AreShared H.value posts.now.shared.table_id posts.now.shared.key
        (from.old.nodes ∷ []) (from.new ∷ others.items)) }
{
    let mut others = Vec::with_capacity(alloc, workers)?;
    for worker in 1..workers {
        let work = work_of(rt, alloc, posts, from, worker, workers)?;
        push(&mut others, work)?;
    }
    Ok(others)
}
