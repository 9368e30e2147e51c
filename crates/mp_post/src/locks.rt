//! Turns at posts.

ghost use Rattle.std.specs.Prelude.{◌≡◌, ◌≤◌, [], length, IfSome};
ghost use Rattle.mp_stamps.specs.Lists.{IsAgentOf};
ghost use Rattle.mp_post_rule.specs.Kinds.{IsTaken};
ghost use Rattle.mp_post_rule.specs.Table.{ArePosts, HasSlot, Holds, IsFree};
ghost use Rattle.mp_post_rule.specs.Views.{SeenAreMarked, after_release, after_take};

use crossbeam_utils::Backoff;
use mp_post_rule::{Kept, PostSeat, Posts, lift, put_back, release_turn, try_turn};
use mp_sets::Agent;
use std::sync::Wait;

/// Takes the turn of a post. It waits until nobody else has it.
fn wait_for_turn<R: Wait>(rt: &R, posts: &Posts, seat: &mut PostSeat, post: Agent)
    requires posts { ArePosts posts.now.shared.table_id posts.now.shared.key }
    requires table { seat.old.table_id ≡ posts.now.shared.table_id }
    requires post { post ≤ posts.now.shared.key }
    requires free { IsFree seat.old.me }
    ensures same { seat.new.table_id ≡ seat.old.table_id }
    ensures taken { IsTaken post posts.now.shared.key seat.old.me seat.new.me }
{
    let backoff = Backoff::new();
    for _ in rt.forever() {
        if try_turn(posts, seat, post) {
            return;
        }
        backoff.snooze();
    }
    unreachable!()
}

/// Takes the turn of a post, and what the post keeps out of its slot. It waits until nobody else has the turn.
pub(crate) fn take_turn<R: Wait>(rt: &R, posts: &Posts, seat: &mut PostSeat, post: Agent) -> Kept
    requires posts { ArePosts posts.now.shared.table_id posts.now.shared.key }
    requires table { seat.old.table_id ≡ posts.now.shared.table_id }
    requires post { post ≤ posts.now.shared.key }
    requires free { IsFree seat.old.me }
    ensures same { seat.new.table_id ≡ seat.old.table_id }
    ensures view { seat.new.me.0 ≡ after_take post result seat.old.me.0 }
    ensures slot { HasSlot post seat.new.me }
    ensures queues { length result.waiting ≡ posts.now.shared.key }
    ensures named { IfSome result.halted (IsAgentOf posts.now.shared.key) }
{
    wait_for_turn(rt, posts, seat, post);
    lift(posts, seat, post)
}

/// Puts what a post keeps, which is what the seat notes for it, back into its slot, and releases its turn.
pub(crate) fn give_back(posts: &Posts, seat: &mut PostSeat, post: Agent, kept: Kept)
    requires posts { ArePosts posts.now.shared.table_id posts.now.shared.key }
    requires table { seat.old.table_id ≡ posts.now.shared.table_id }
    requires post { post ≤ posts.now.shared.key }
    requires turn { Holds post kept seat.old.me.0 }
    requires slot { HasSlot post seat.old.me }
    ensures same { seat.new.table_id ≡ seat.old.table_id }
    ensures me { seat.new.me ≡ (after_release seat.old.me.0, []) }
    ensures marks { SeenAreMarked seat.new.me.0 }
{
    put_back(posts, seat, post, kept);
    release_turn(posts, seat, post);
}
