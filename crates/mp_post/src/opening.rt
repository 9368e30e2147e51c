//! Posts at the start.

ghost use Rattle.std.specs.Prelude.{◌≡◌, ◌≤◌, replicate, IfOk};
ghost use Rattle.mp_post_rule.specs.Kinds.{HoldsAll};
ghost use Rattle.mp_post_rule.specs.Table.{ArePosts};
ghost use Rattle.mp_post_rule.specs.Views.{first_view};
ghost use Rattle.mp_post.specs.Desks.{IsDeskOf};

use crate::desk::Desk;
use mp_list::OutOfMemory;
use mp_post_rule::{Posts, open_posts};
use mp_stamps::StampedLists;
use std::alloc::Global;

/// A mark for each of so many agents.
pub(crate) fn marks(alloc: Global, agents: usize, mark: bool) -> Result<Vec<bool>, OutOfMemory>
    ensures { IfOk result (λ v. v.items ≡ replicate agents mark) }
{
    let mut marks = Vec::with_capacity(alloc, agents)?;
    for _ in 0..agents {
        marks.push(mark)?;
    }
    Ok(marks)
}

/// The posts of so many agents, at which nothing waits, and a desk that holds all of them. Refuses only for want of
/// memory.
pub fn make(alloc: Global, agents: u16) -> Result<(Posts, Desk), OutOfMemory>
    requires { (1 ≤ agents) × (agents ≤ 16) }
    ensures posts { IfOk result (λ r. ArePosts r.0.shared.table_id r.0.shared.key × (r.0.shared.key ≡ agents)) }
    ensures desk { IfOk result (λ r. IsDeskOf r.0.shared.table_id agents r.1) }
    ensures all { IfOk result (λ r. HoldsAll agents r.1.view) }
    ensures view { IfOk result (λ r. r.1.view ≡ first_view agents) }
{
    let count = usize::from(agents);
    let lists = StampedLists::new(alloc, count)?;
    let held = marks(alloc, count, true)?;
    let (posts, seat) = open_posts(alloc, agents)?;
    Ok((
        posts,
        Desk {
            seat,
            lists,
            held,
            more: false,
        },
    ))
}
