//! Two works in one.

ghost use Rattle.std.specs.Prelude.{◌≡◌, ◌<◌, ◌≤◌, ℕ, None, length, slice_index_or, slice_set};
ghost use Rattle.mp_post.specs.Desks.{IsDeskOf};
ghost use Rattle.mp_post.specs.Parts.{HasMerged};
ghost use Rattle.mp_post_rule.specs.Table.{ArePosts};
ghost use Rattle.mp_team.specs.Joined.{either_node, either_nodes};

use crate::work::Work;
use mp_nodes::{Node, Nodes};
use mp_post::{Desk, Posts};
use mp_task::Heuristic;
use std::sync::Wait;

/// The first node, and the other where there is none.
fn either<H: Heuristic>(own: Option<Node<H>>, other: Option<Node<H>>) -> Option<Node<H>>
    ensures { result ≡ either_node own other }
{
    match own {
        Some(node) => Some(node),
        None => other,
    }
}

/// What is in a place, unless there is something, comes from the other nodes.
fn take_place<H: Heuristic>(nodes: &mut Nodes<H>, others: &mut Nodes<H>, at: usize)
    requires own { at < length nodes.old }
    requires other { at < length others.old }
    ensures own { nodes.new ≡ slice_set nodes.old at
        (either_node (slice_index_or nodes.old at None) (slice_index_or others.old at None)) }
    ensures other { others.new ≡ slice_set others.old at None }
{
    let own = nodes.take(at);
    let other = others.take(at);
    nodes.put(at, either(own, other));
}

/// The nodes of both.
fn take_over<H: Heuristic>(nodes: &mut Nodes<H>, mut others: Nodes<H>)
    requires { length others ≡ length nodes.old }
    ensures { nodes.new ≡ either_nodes nodes.old others }
{
    let count = nodes.len();
    for at in 0..count {
        take_place(nodes, &mut others, at);
    }
}

/// One desk in place of two.
fn merged<R: Wait>(rt: &R, posts: &Posts, desk: Desk, other: Desk) -> Desk
    requires posts { ArePosts posts.now.shared.table_id posts.now.shared.key }
    requires desk { IsDeskOf posts.now.shared.table_id posts.now.shared.key desk }
    requires other { IsDeskOf posts.now.shared.table_id posts.now.shared.key other }
    ensures desk { IsDeskOf posts.now.shared.table_id posts.now.shared.key result }
    ensures merged { HasMerged desk.view other.view result.view }
{
    match desk.merge(rt, posts, other) {
        Ok(both) => both,
        Err(_) => unreachable!(),
    }
}

/// One work in place of two.
pub(crate) fn joined<R: Wait, H: Heuristic>(
    rt: &R,
    posts: &Posts,
    work: Work<H>,
    other: Work<H>,
) -> Work<H>
    requires posts { ArePosts posts.now.shared.table_id posts.now.shared.key }
    requires desk { IsDeskOf posts.now.shared.table_id posts.now.shared.key work.desk }
    requires other { IsDeskOf posts.now.shared.table_id posts.now.shared.key other.desk }
    requires many { length other.nodes ≡ length work.nodes }
    ensures desk { IsDeskOf posts.now.shared.table_id posts.now.shared.key result.desk }
    ensures merged { HasMerged work.desk.view other.desk.view result.desk.view }
    ensures nodes { result.nodes ≡ either_nodes work.nodes other.nodes }
{
    let Work { mut nodes, desk } = work;
    let Work {
        nodes: others,
        desk: other_desk,
    } = other;
    take_over(&mut nodes, others);
    let desk = merged(rt, posts, desk, other_desk);
    Work { nodes, desk }
}
