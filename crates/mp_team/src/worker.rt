//! One worker.

ghost use Rattle.std.specs.Prelude.{◌≡◌, [], ◌∷◌, MatchResult, ⊤};
ghost use Rattle.mp_post_rule.specs.Table.{ArePosts};
ghost use Rattle.mp_team.specs.Works.{AreAnswered, IsBack, IsWork};

use crate::work::{Answered, Work};
use mp_nodes::serve;
use mp_outside::Gate;
use mp_post::Posts;
use mp_task::Heuristic;
use std::snapshot::Snapshot;
use std::sync::Wait;
use std::sync::atomic::{AtomicBool, Ordering};
use std::thread::{Promise, PromisedHandle, Scope};

/// What a worker gives back: what it answered, or the work unserved.
pub(crate) type Back<H> = Result<Answered<H>, Work<H>>;

/// What was handed to a worker, and at which posts.
#[derive(Drop)]
pub(crate) struct Handed<H: Heuristic> {
    posts: Snapshot<Posts>,
    work: Snapshot<Work<H>>,
}

impl<H: Heuristic> Promise<Result<Answered<H>, Work<H>>> for Handed<H> {
    ghost use Rattle.mp_team.specs.Works.{IsBack};

    ghost kept_by = { λ p back. IsBack H.value p.posts.value.shared.table_id p.posts.value.shared.key p.work.value back };
}

/// Serves a work.
pub(crate) fn served<R: Wait, H: Heuristic, G: Gate>(
    rt: &R,
    posts: &Posts,
    work: Work<H>,
    gate: &G,
) -> Answered<H>
    requires posts { ArePosts posts.now.shared.table_id posts.now.shared.key }
    requires work { IsWork H.value posts.now.shared.table_id posts.now.shared.key work }
    ensures { AreAnswered H.value posts.now.shared.table_id posts.now.shared.key (work.nodes ∷ []) result }
{
    let Work {
        mut nodes,
        mut desk,
    } = work;
    let served = serve(rt, posts, &mut nodes, &mut desk, gate);
    Answered {
        work: Work { nodes, desk },
        served,
    }
}

/// What a thread does: it serves the work, unless it was noted that it could not be started.
fn worked<R: Wait, H: Heuristic, G: Gate>(
    rt: &R,
    posts: &Posts,
    work: Work<H>,
    gate: &G,
    unstarted: &AtomicBool,
) -> Result<Answered<H>, Work<H>>
    requires posts { ArePosts posts.now.shared.table_id posts.now.shared.key }
    requires work { IsWork H.value posts.now.shared.table_id posts.now.shared.key work }
    ensures { IsBack H.value posts.now.shared.table_id posts.now.shared.key work result }
{
    if unstarted.load(Ordering::SeqCst) {
        return Err(work);
    }
    Ok(served(rt, posts, work, gate))
}

/// Starts a worker. Where none can be started, the work comes back.
#[tactic(auto, using(crate::proofs::Crossing::work_crosses, crate::proofs::Crossing::work_field_crosses, crate::proofs::Crossing::answered_crosses, crate::proofs::Crossing::answered_field_crosses))]
pub(crate) fn started<'s, E, R: Wait + Sync, H: Heuristic + Send + 's, G: Gate + Sync>(
    at: &Scope<'s, E>,
    rt: &'s R,
    posts: &'s Posts,
    work: Work<H>,
    gate: &'s G,
    unstarted: &'s AtomicBool,
) -> Result<PromisedHandle<Result<Answered<H>, Work<H>>, Handed<H>>, Result<Answered<H>, Work<H>>>
    requires posts { ArePosts posts.now.shared.table_id posts.now.shared.key }
    requires work { IsWork H.value posts.now.shared.table_id posts.now.shared.key work }
    ensures { MatchResult result
        (λ handle. (handle.promise.posts.value ≡ posts.now) × (handle.promise.work.value ≡ work))
        (IsBack H.value posts.now.shared.table_id posts.now.shared.key work) }
{
    let promise = Handed {
        posts: Snapshot::of(posts),
        work: Snapshot::of(&work),
    };
    match at.spawn_with(promise, move || worked(rt, posts, work, gate, unstarted)) {
        Ok(handle) => Ok(handle),
        Err(refused) => {
            unstarted.store(true, Ordering::SeqCst);
            Err((refused.value)())
        }
    }
}

/// Ends a worker that was started. A work that comes back unserved is served here.
pub(crate) fn ended<R: Wait, H: Heuristic, G: Gate>(
    rt: &R,
    posts: &Posts,
    back: Result<Answered<H>, Work<H>>,
    gate: &G,
) -> Answered<H>
    requires posts { ArePosts posts.now.shared.table_id posts.now.shared.key }
    requires work { MatchResult back (λ answered. ⊤) (IsWork H.value posts.now.shared.table_id posts.now.shared.key) }
    ensures { MatchResult back (λ answered. result ≡ answered)
        (λ work. AreAnswered H.value posts.now.shared.table_id posts.now.shared.key (work.nodes ∷ []) result) }
{
    match back {
        Ok(answered) => answered,
        Err(work) => served(rt, posts, work, gate),
    }
}
