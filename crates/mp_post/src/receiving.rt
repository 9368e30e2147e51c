//! The second half of a turn: the oldest message that waits for a party at another's post is taken.

ghost use Rattle.std.specs.Prelude.{◌≡◌, ◌≢◌, ◌<◌, ◌≤◌, ◌-◌, ◌^◌, ◌++◌, ◌∷◌, List, [], length, MatchOption};
ghost use Rattle.std.specs.Vec.{vec_capacity, vec_len};
ghost use Rattle.mp_stamps.specs.Lists.{clock as clock_is};
ghost use Rattle.mp_stamps.specs.Mail.{Mail};
ghost use Rattle.mp_post_rule.specs.Queues.{waiting_for};
ghost use Rattle.mp_post_rule.specs.Table.{ArePosts, HasSlot, Holds, IsFree};
ghost use Rattle.mp_post_rule.specs.Views.{SeenAreMarked, after_receipt, after_release, receipt_of};
ghost use Rattle.mp_post.specs.Desks.{HasList, HasNewList};
ghost use Rattle.mp_post.specs.Turns.{HasFoundNone, HasTakenOldest};

use crate::locks::{give_back, take_turn};
use crate::own::{add_receipt, stamp_after};
use mp_messages::Bytes;
use mp_post_rule::{Kept, PostSeat, Posts, Queues, release_turn, sign_receipt};
use mp_sets::Agent;
use mp_stamps::Stamped;
use std::sync::Wait;

/// Whether more than one message waits for an agent.
fn more_than_one(waiting: &Queues, agent: Agent) -> bool
    requires { agent - 1 < length waiting.now }
{
    waiting.waiting(usize::from(agent.number()) - 1) > 1
}

/// Takes the oldest message that waits for a party at a post whose turn the seat has, signs its receipt, and
/// releases the turn. None exactly where no message waits. It notes whether there are more, and takes no memory.
fn hand_over(
    posts: &Posts,
    seat: &mut PostSeat,
    own: &mut Vec<Stamped>,
    by: Agent,
    from: Agent,
    mut kept: Kept,
    more: &mut bool,
) -> Option<Bytes>
    requires posts { ArePosts posts.now.shared.table_id posts.now.shared.key }
    requires table { seat.old.table_id ≡ posts.now.shared.table_id }
    requires by { by ≤ posts.now.shared.key }
    requires from { from ≤ posts.now.shared.key }
    requires other { from ≢ by }
    requires turn { Holds from kept seat.old.me.0 }
    requires slot { HasSlot from seat.old.me }
    requires queues { length kept.waiting ≡ posts.now.shared.key }
    requires list { HasList by own.old.items seat.old.me.0 }
    requires stamps { clock_is own.old.items ≤ 2 ^ 64 - 2 }
    requires room { vec_len own.old < vec_capacity own.old }
    ensures same { seat.new.table_id ≡ seat.old.table_id }
    ensures marks { SeenAreMarked seat.new.me.0 }
    ensures waited { MatchOption result (waiting_for by kept ≡ [])
        (λ bytes. (m : Mail) × (others : List Mail) × (waiting_for by kept ≡ m ∷ others) × (bytes ≡ m.bytes)) }
    ensures view { MatchOption result (seat.new.me ≡ (after_release seat.old.me.0, []))
        (λ _. seat.new.me ≡ (after_release (after_receipt by seat.old.me.0), [])) }
    ensures own { MatchOption result (own.new.items ≡ own.old.items)
        (λ _. own.new.items ≡ own.old.items ++ receipt_of (clock_is own.old.items) by from (waiting_for by kept)) }
{
    *more = more_than_one(&kept.waiting, by);
    match kept.waiting.pop(usize::from(by.number()) - 1) {
        Some(message) => {
            let stamp = stamp_after(own.as_slice(), &message);
            sign_receipt(posts, seat, from, by, kept);
            release_turn(posts, seat, from);
            Some(add_receipt(own, stamp, by, from, message))
        }
        None => {
            give_back(posts, seat, from, kept);
            None
        }
    }
}

/// Takes the turn of a sender's post, and the oldest message that waits there for a party. None exactly where no
/// message waits. It notes whether there are more, and takes no memory.
pub(crate) fn receive<R: Wait>(
    rt: &R,
    posts: &Posts,
    seat: &mut PostSeat,
    own: &mut Vec<Stamped>,
    by: Agent,
    from: Agent,
    more: &mut bool,
) -> Option<Bytes>
    requires posts { ArePosts posts.now.shared.table_id posts.now.shared.key }
    requires table { seat.old.table_id ≡ posts.now.shared.table_id }
    requires free { IsFree seat.old.me }
    requires by { by ≤ posts.now.shared.key }
    requires from { from ≤ posts.now.shared.key }
    requires other { from ≢ by }
    requires list { HasList by own.old.items seat.old.me.0 }
    requires stamps { clock_is own.old.items ≤ 2 ^ 64 - 2 }
    requires room { vec_len own.old < vec_capacity own.old }
    ensures same { seat.new.table_id ≡ seat.old.table_id }
    ensures free { IsFree seat.new.me }
    ensures told { MatchOption result (HasFoundNone by seat.old.me.0 seat.new.me.0 from)
        (HasTakenOldest by seat.old.me.0 seat.new.me.0 from) }
    ensures list { HasNewList by own.new.items seat.old.me.0 seat.new.me.0 }
{
    let kept = take_turn(rt, posts, seat, from);
    hand_over(posts, seat, own, by, from, kept, more)
}
