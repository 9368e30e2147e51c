//! Turns.

ghost use Rattle.std.specs.Prelude.{◌≡◌, ◌≢◌, ◌<◌, ◌≤◌, ◌++◌, ℕ, All, IfErr, IfOk, IfSome, IsSomeAnd, OnOk};
ghost use Rattle.mp_stamps.specs.Lists.{entries};
ghost use Rattle.mp_post_rule.specs.Queues.{IsSignable};
ghost use Rattle.mp_post_rule.specs.Table.{ArePosts, IsFree};
ghost use Rattle.mp_post_rule.specs.Views.{list_at, party_at};
ghost use Rattle.mp_post.specs.Desks.{HasList, HasNewList, HoldsParty, IsDeskOf};
ghost use Rattle.mp_post.specs.Turns.{HasRefused, HasTurned, receipts_of};

use crate::desk::{Desk, put_own, take_own};
use crate::receiving::receive;
use crate::refusal::{Batch, TurnRefusal};
use crate::signing::sign;
use mp_messages::Bytes;
use mp_outside::Gate;
use mp_post_rule::{PostSeat, Posts};
use mp_sets::Agent;
use mp_stamps::Stamped;
use std::sync::Wait;

/// Both halves of a turn, one after the other.
fn halves<R: Wait, G: Gate>(
    rt: &R,
    posts: &Posts,
    seat: &mut PostSeat,
    own: &mut Vec<Stamped>,
    by: Agent,
    batch: Batch,
    from: Option<Agent>,
    more: &mut bool,
    gate: &G,
) -> Result<Option<Bytes>, TurnRefusal>
    requires posts { ArePosts posts.now.shared.table_id posts.now.shared.key }
    requires table { seat.old.table_id ≡ posts.now.shared.table_id }
    requires free { IsFree seat.old.me }
    requires by { by ≤ posts.now.shared.key }
    requires batch { All (IsSignable posts.now.shared.key by) batch }
    requires from { IfSome from (λ f. (f ≢ by) × (f ≤ posts.now.shared.key)) }
    requires list { HasList by own.old.items seat.old.me.0 }
    ensures same { seat.new.table_id ≡ seat.old.table_id }
    ensures free { IsFree seat.new.me }
    ensures turned { IfOk result (λ handed. HasTurned by batch from handed seat.old.me.0 seat.new.me.0) }
    ensures refused { IfErr result (HasRefused posts.now.shared.key by batch seat.old.me.0 seat.new.me.0) }
    ensures list { HasNewList by own.new.items seat.old.me.0 seat.new.me.0 }
{
    sign(rt, posts, seat, own, by, batch, gate)?;
    match from {
        None => Ok(None),
        Some(from) => Ok(receive(rt, posts, seat, own, by, from, more)),
    }
}

/// Both halves of a turn, and what follows from them.
fn both_halves<R: Wait, G: Gate>(
    rt: &R,
    posts: &Posts,
    seat: &mut PostSeat,
    own: &mut Vec<Stamped>,
    by: Agent,
    batch: Batch,
    from: Option<Agent>,
    more: &mut bool,
    gate: &G,
) -> Result<Option<Bytes>, TurnRefusal>
    requires posts { ArePosts posts.now.shared.table_id posts.now.shared.key }
    requires table { seat.old.table_id ≡ posts.now.shared.table_id }
    requires free { IsFree seat.old.me }
    requires by { by ≤ posts.now.shared.key }
    requires batch { All (IsSignable posts.now.shared.key by) batch }
    requires from { IfSome from (λ f. (f ≢ by) × (f ≤ posts.now.shared.key)) }
    requires list { HasList by own.old.items seat.old.me.0 }
    ensures same { seat.new.table_id ≡ seat.old.table_id }
    ensures free { IsFree seat.new.me }
    ensures turned { IfOk result (λ handed. HasTurned by batch from handed seat.old.me.0 seat.new.me.0) }
    ensures refused { IfErr result (HasRefused posts.now.shared.key by batch seat.old.me.0 seat.new.me.0) }
    ensures turns { OnOk result (seat.old.me.0.turns < seat.new.me.0.turns) }
    ensures last { OnOk result (IfSome from (λ sender. IsSomeAnd seat.new.me.0.last (λ found. found.post ≡ sender))) }
    ensures entries { IfOk result (λ handed. entries (list_at seat.new.me.0 by)
        ≡ (entries (list_at seat.old.me.0 by) ++ batch) ++ receipts_of by from handed) }
    ensures others { (agent : ℕ) → agent ≢ by → party_at seat.new.me.0 agent ≡ party_at seat.old.me.0 agent }
    ensures holds { (agent : ℕ) → HoldsParty agent seat.old.me.0 → HoldsParty agent seat.new.me.0 }
    ensures list { HasNewList by own.new.items seat.old.me.0 seat.new.me.0 }
{
    halves(rt, posts, seat, own, by, batch, from, more, gate)
}

impl Desk {
    /// Signs a batch at its party's own post, in one step, and then, where a sender is named, takes the oldest
    /// message that waits at the sender's post for that party, whose receipt it signs there in one step. None exactly
    /// where no sender is named or none waited there. Where somebody was halted at the party's post, and for want of
    /// memory or of stamps, nothing is signed.
    pub fn turn<R: Wait, G: Gate>(
        &mut self,
        rt: &R,
        posts: &Posts,
        by: Agent,
        batch: Batch,
        from: Option<Agent>,
        gate: &G,
    ) -> Result<Option<Bytes>, TurnRefusal>
        requires posts { ArePosts posts.now.shared.table_id posts.now.shared.key }
        requires desk { IsDeskOf posts.now.shared.table_id posts.now.shared.key self.old }
        requires held { HoldsParty by self.old.view }
        requires batch { All (IsSignable posts.now.shared.key by) batch }
        requires from { IfSome from (λ f. (f ≢ by) × (f ≤ posts.now.shared.key)) }
        ensures desk { IsDeskOf posts.now.shared.table_id posts.now.shared.key self.new }
        ensures turned { IfOk result (λ handed. HasTurned by batch from handed self.old.view self.new.view) }
        ensures refused { IfErr result (HasRefused posts.now.shared.key by batch self.old.view self.new.view) }
        ensures turns { OnOk result (self.old.view.turns < self.new.view.turns) }
        ensures last { OnOk result (IfSome from (λ sender. IsSomeAnd self.new.view.last (λ found. found.post ≡ sender))) }
        ensures entries { IfOk result (λ handed. entries (list_at self.new.view by)
            ≡ (entries (list_at self.old.view by) ++ batch) ++ receipts_of by from handed) }
        ensures others { (agent : ℕ) → agent ≢ by → party_at self.new.view agent ≡ party_at self.old.view agent }
        ensures holds { (agent : ℕ) → HoldsParty agent self.old.view → HoldsParty agent self.new.view }
    {
        let alloc = *self.held.allocator();
        let mut own = take_own(alloc, &mut self.lists, by);
        let answer = both_halves(
            rt,
            posts,
            &mut self.seat,
            &mut own,
            by,
            batch,
            from,
            &mut self.more,
            gate,
        );
        put_own(&mut self.lists, by, own);
        answer
    }
}
