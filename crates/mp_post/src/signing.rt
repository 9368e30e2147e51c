//! The first half of a turn: a batch is signed at its party's own post.

ghost use Rattle.std.specs.Prelude.{◌≡◌, ◌<◌, ◌≤◌, ◌+◌, ◌-◌, ◌^◌, ◌++◌, [], All, None, length, IfErr, MatchResult, OnErr, OnOk};
ghost use Rattle.std.specs.Vec.{vec_capacity, vec_len};
ghost use Rattle.mp_stamps.specs.Lists.{clock as clock_is};
ghost use Rattle.mp_post_rule.specs.Queues.{IsSignable, stamped_after};
ghost use Rattle.mp_post_rule.specs.Table.{ArePosts, HasSlot, Holds, IsFree};
ghost use Rattle.mp_post_rule.specs.Views.{SeenAreMarked, after_release, after_signing};
ghost use Rattle.mp_post.specs.Desks.{HasList, HasNewList};
ghost use Rattle.mp_post.specs.Growth.{HasQueue, with_all};
ghost use Rattle.mp_post.specs.Turns.{HasRefused, HasSigned};
ghost use Rattle.mp_post.specs.declared.refusal.TurnRefusal.TheVariants.{OutOfMemory as NoMemory};

use crate::growth::{add_all, puts_in};
use crate::locks::{give_back, take_turn};
use crate::own::{add_batch, clock};
use crate::refusal::{Batch, TurnRefusal};
use mp_list::{OutOfMemory, does_not_fit};
use mp_outside::{Gate, Kind3};
use mp_post_rule::{Kept, PostSeat, Posts, release_turn, sign_batch};
use mp_sets::Agent;
use mp_stamps::Stamped;
use std::sync::Wait;

/// All growth that a batch needs: its messages wait, and its party's list has room for it and one entry more.
/// For want of memory, or of stamps, all is as it was.
fn grow(
    kept: &mut Kept,
    own: &mut Vec<Stamped>,
    clock: u64,
    batch: &Batch,
) -> Result<(), OutOfMemory>
    requires { All (HasQueue (length kept.old.waiting)) batch.now }
    ensures ok { OnOk result (kept.new ≡ record kept.old { waiting = with_all clock batch.now kept.old.waiting }) }
    ensures stamps { OnOk result (clock + length batch.now ≤ 2 ^ 64 - 2) }
    ensures room { OnOk result (vec_len own.new + length batch.now < vec_capacity own.new) }
    ensures err { OnErr result (kept.new ≡ kept.old) }
    ensures own { own.new.items ≡ own.old.items }
{
    let Some(last) = clock.checked_add(batch.len() as u64) else {
        return Err(does_not_fit());
    };
    if last > u64::MAX - 1 {
        return Err(does_not_fit());
    }
    own.reserve(batch.len() + 1)?;
    add_all(&mut kept.waiting, clock, batch.as_slice())
}

/// Signs a batch at its party's post, whose turn the seat has and at which nobody was halted, and releases the
/// turn. For want of memory nothing is signed.
fn sign_free<G: Gate>(
    posts: &Posts,
    seat: &mut PostSeat,
    own: &mut Vec<Stamped>,
    by: Agent,
    mut kept: Kept,
    clock: u64,
    batch: Batch,
    gate: &G,
) -> Result<(), TurnRefusal>
    requires posts { ArePosts posts.now.shared.table_id posts.now.shared.key }
    requires table { seat.old.table_id ≡ posts.now.shared.table_id }
    requires by { by ≤ posts.now.shared.key }
    requires batch { All (IsSignable posts.now.shared.key by) batch }
    requires turn { Holds by kept seat.old.me.0 }
    requires slot { HasSlot by seat.old.me }
    requires queues { length kept.waiting ≡ posts.now.shared.key }
    requires list { HasList by own.old.items seat.old.me.0 }
    requires clock { clock ≡ clock_is own.old.items }
    ensures same { seat.new.table_id ≡ seat.old.table_id }
    ensures marks { SeenAreMarked seat.new.me.0 }
    ensures view { MatchResult result
        (λ _. seat.new.me ≡ (after_release (after_signing by batch seat.old.me.0), []))
        (λ _. seat.new.me ≡ (after_release seat.old.me.0, [])) }
    ensures own { MatchResult result
        (λ _. own.new.items ≡ own.old.items ++ stamped_after (clock_is own.old.items) batch)
        (λ _. own.new.items ≡ own.old.items) }
    ensures stamps { OnOk result (clock_is own.old.items + length batch ≤ 2 ^ 64 - 2) }
    ensures room { OnOk result (vec_len own.new < vec_capacity own.new) }
    ensures refused { IfErr result (λ why. why ≡ NoMemory batch) }
{
    if grow(&mut kept, own, clock, &batch).is_err() {
        give_back(posts, seat, by, kept);
        return Err(TurnRefusal::OutOfMemory(batch));
    }
    gate.pass(by, Kind3::Sign);
    let puts = puts_in(batch.as_slice());
    sign_batch(posts, seat, by, kept, &batch, puts);
    release_turn(posts, seat, by);
    add_batch(own, clock, batch);
    Ok(())
}

/// Takes the turn of a party's own post, and signs a batch there. Where somebody was halted at it, and for want of
/// memory, nothing is signed.
pub(crate) fn sign<R: Wait, G: Gate>(
    rt: &R,
    posts: &Posts,
    seat: &mut PostSeat,
    own: &mut Vec<Stamped>,
    by: Agent,
    batch: Batch,
    gate: &G,
) -> Result<(), TurnRefusal>
    requires posts { ArePosts posts.now.shared.table_id posts.now.shared.key }
    requires table { seat.old.table_id ≡ posts.now.shared.table_id }
    requires free { IsFree seat.old.me }
    requires by { by ≤ posts.now.shared.key }
    requires batch { All (IsSignable posts.now.shared.key by) batch }
    requires list { HasList by own.old.items seat.old.me.0 }
    ensures same { seat.new.table_id ≡ seat.old.table_id }
    ensures free { IsFree seat.new.me }
    ensures told { MatchResult result (λ _. HasSigned by seat.old.me.0 seat.new.me.0 batch)
        (HasRefused posts.now.shared.key by batch seat.old.me.0 seat.new.me.0) }
    ensures list { HasNewList by own.new.items seat.old.me.0 seat.new.me.0 }
    ensures stamps { OnOk result (clock_is own.new.items ≤ 2 ^ 64 - 2) }
    ensures room { OnOk result (vec_len own.new < vec_capacity own.new) }
{
    let kept = take_turn(rt, posts, seat, by);
    match kept.halted {
        Some(agent) => {
            give_back(posts, seat, by, kept);
            Err(TurnRefusal::Halted(agent, batch))
        }
        None => {
            let last = clock(own.as_slice());
            sign_free(posts, seat, own, by, kept, last, batch, gate)
        }
    }
}
