//! All workers of a team.

ghost use Rattle.std.specs.Prelude.{◌≡◌, ◌≤◌, ◌++◌, List, [], ◌∷◌, All, false, length, true};
ghost use Rattle.mp_post.specs.Desks.{IsDeskOf};
ghost use Rattle.mp_post_rule.specs.Table.{ArePosts};
ghost use Rattle.mp_team.specs.Kept.{Places};
ghost use Rattle.mp_team.specs.Works.{AreAnswered, IsWork, is_bad, lacks_memory, nodes_of};

use crate::joining::joined;
use crate::work::{Answered, Work, first_unended, is_bad, lacks_memory};
use crate::worker::{Handed, ended, served, started};
use mp_outside::Gate;
use mp_post::Posts;
use mp_task::Heuristic;
use std::sync::Wait;
use std::sync::atomic::AtomicBool;
use std::thread::{PromisedHandle, Scope, Threads};

/// What two workers answered, in one: the works joined, and of the answers the first, unless that says that all have ended.
fn in_one<R: Wait, H: Heuristic>(
    rt: &R,
    posts: &Posts,
    one: Answered<H>,
    other: Answered<H>,
) -> Answered<H>
    requires posts { ArePosts posts.now.shared.table_id posts.now.shared.key }
    requires one { (first : List Places) × AreAnswered H.value posts.now.shared.table_id posts.now.shared.key first one }
    requires other { (second : List Places) × AreAnswered H.value posts.now.shared.table_id posts.now.shared.key second other }
    requires enough { (lacks_memory one.served ≡ false) × (lacks_memory other.served ≡ false) }
    requires bad { is_bad other.served ≡ true → is_bad one.served ≡ true }
    ensures { (first second : List Places)
        → AreAnswered H.value posts.now.shared.table_id posts.now.shared.key first one
        → AreAnswered H.value posts.now.shared.table_id posts.now.shared.key second other
        → AreAnswered H.value posts.now.shared.table_id posts.now.shared.key (first ++ second) result }
{
    let served = first_unended(one.served, other.served);
    Answered {
        work: joined(rt, posts, one.work, other.work),
        served,
    }
}

/// What two workers answered, in one: want of memory where one met it, else a bad message where one met it, else that an agent
/// was seen halted where one saw it. So the node that found a message to be a bad one is kept.
fn both<R: Wait, H: Heuristic>(
    rt: &R,
    posts: &Posts,
    one: Answered<H>,
    other: Answered<H>,
) -> Answered<H>
    requires posts { ArePosts posts.now.shared.table_id posts.now.shared.key }
    requires one { (first : List Places) × AreAnswered H.value posts.now.shared.table_id posts.now.shared.key first one }
    requires other { (second : List Places) × AreAnswered H.value posts.now.shared.table_id posts.now.shared.key second other }
    ensures { (first second : List Places)
        → AreAnswered H.value posts.now.shared.table_id posts.now.shared.key first one
        → AreAnswered H.value posts.now.shared.table_id posts.now.shared.key second other
        → AreAnswered H.value posts.now.shared.table_id posts.now.shared.key (first ++ second) result }
{
    if lacks_memory(one.served) {
        return one;
    }
    if lacks_memory(other.served) {
        return other;
    }
    if is_bad(other.served) {
        return in_one(rt, posts, other, one);
    }
    in_one(rt, posts, one, other)
}

/// Ends a worker that runs.
fn worker_ended<R: Threads + Wait, H: Heuristic, G: Gate>(
    rt: &R,
    posts: &Posts,
    handle: PromisedHandle<Result<Answered<H>, Work<H>>, Handed<H>>,
    gate: &G,
) -> Answered<H>
    requires posts { ArePosts posts.now.shared.table_id posts.now.shared.key }
    requires same { handle.promise.posts.value ≡ posts.now }
    requires work { IsWork H.value posts.now.shared.table_id posts.now.shared.key handle.promise.work.value }
    ensures { AreAnswered H.value posts.now.shared.table_id posts.now.shared.key (handle.promise.work.value.nodes ∷ []) result }
{
    ended(rt, posts, handle.join(rt), gate)
}

/// Serves some works, each of the others by a worker of its own if one can be started, and the first here.
pub(crate) fn all_served<'s, E, R: Threads + Wait + Sync, H: Heuristic + Send + 's, G: Gate + Sync>(
    at: &Scope<'s, E>,
    rt: &'s R,
    posts: &'s Posts,
    work: Work<H>,
    mut others: Vec<Work<H>>,
    gate: &'s G,
    unstarted: &'s [AtomicBool],
) -> Answered<H>
    requires posts { ArePosts posts.now.shared.table_id posts.now.shared.key }
    requires work { IsWork H.value posts.now.shared.table_id posts.now.shared.key work }
    requires others { All (IsWork H.value posts.now.shared.table_id posts.now.shared.key) others.items }
    requires flags { length others.items ≤ length unstarted.now }
    ensures { AreAnswered H.value posts.now.shared.table_id posts.now.shared.key (nodes_of (work ∷ others.items)) result }
{
    let Some(other) = others.pop() else {
        return served(rt, posts, work, gate);
    };
    match started(at, rt, posts, other, gate, &unstarted[others.len()]) {
        Ok(handle) => {
            let rest = all_served(at, rt, posts, work, others, gate, unstarted);
            let last = worker_ended(rt, posts, handle, gate);
            both(rt, posts, rest, last)
        }
        Err(Ok(answered)) => {
            let rest = all_served(at, rt, posts, work, others, gate, unstarted);
            both(rt, posts, rest, answered)
        }
        Err(Err(other)) => {
            let work = joined(rt, posts, work, other);
            all_served(at, rt, posts, work, others, gate, unstarted)
        }
    }
}
