//! Desks that are split and merged.

ghost use Rattle.std.specs.Prelude.{◌≡◌, ◌≢◌, ℕ, IfOk, IsOkAnd, OnErr};
ghost use Rattle.mp_post_rule.specs.Table.{ArePosts, IsFree};
ghost use Rattle.mp_post.specs.Desks.{HoldsParty, IsDeskOf};
ghost use Rattle.mp_post.specs.Parts.{HasMerged, HasSplit};

use crate::desk::Desk;
use crate::locks::{give_back, take_turn};
use crate::moving::{move_party, take_over};
use crate::opening::marks;
use mp_list::OutOfMemory;
use mp_post_rule::{PostSeat, Posts, join_seats, split_party};
use mp_sets::Agent;
use mp_stamps::StampedLists;
use std::sync::Wait;

/// A party goes to a new seat, while the turn of the first post is held.
fn parted<R: Wait>(
    rt: &R,
    posts: &Posts,
    seat: &mut PostSeat,
    first: Agent,
    party: Agent,
) -> PostSeat
    requires posts { ArePosts posts.now.shared.table_id posts.now.shared.key }
    requires table { seat.old.table_id ≡ posts.now.shared.table_id }
    requires free { IsFree seat.old.me }
    requires first { first ≡ 1 }
    requires held { HoldsParty party seat.old.me.0 }
    ensures same { (seat.new.table_id ≡ seat.old.table_id) × (result.table_id ≡ seat.old.table_id) }
    ensures free { IsFree seat.new.me × IsFree result.me }
    ensures split { HasSplit party seat.old.me.0 seat.new.me.0 result.me.0 }
    ensures holds { HoldsParty party result.me.0 }
    ensures others { (agent : ℕ) → agent ≢ party → HoldsParty agent seat.old.me.0 → HoldsParty agent seat.new.me.0 }
{
    let kept = take_turn(rt, posts, seat, first);
    let new = split_party(posts, seat, party);
    give_back(posts, seat, first, kept);
    new
}

/// A seat takes over the parties of another, while it holds the turn of the first post.
fn joined<R: Wait>(rt: &R, posts: &Posts, seat: &mut PostSeat, first: Agent, other: PostSeat)
    requires posts { ArePosts posts.now.shared.table_id posts.now.shared.key }
    requires table { (seat.old.table_id ≡ posts.now.shared.table_id) × (other.table_id ≡ posts.now.shared.table_id) }
    requires free { IsFree seat.old.me }
    requires other { IsFree other.me }
    requires first { first ≡ 1 }
    ensures same { seat.new.table_id ≡ seat.old.table_id }
    ensures free { IsFree seat.new.me }
    ensures merged { HasMerged seat.old.me.0 other.me.0 seat.new.me.0 }
    ensures holds { (agent : ℕ) → HoldsParty agent seat.old.me.0 → HoldsParty agent seat.new.me.0 }
    ensures takes_over { (agent : ℕ) → HoldsParty agent other.me.0 → HoldsParty agent seat.new.me.0 }
{
    let kept = take_turn(rt, posts, seat, first);
    join_seats(posts, seat, other);
    give_back(posts, seat, first, kept);
}

impl Desk {
    /// A party goes to a desk of its own. For want of memory nothing has changed.
    pub fn split<R: Wait>(
        &mut self,
        rt: &R,
        posts: &Posts,
        party: Agent,
    ) -> Result<Desk, OutOfMemory>
        requires posts { ArePosts posts.now.shared.table_id posts.now.shared.key }
        requires desk { IsDeskOf posts.now.shared.table_id posts.now.shared.key self.old }
        requires held { HoldsParty party self.old.view }
        ensures desk { IsDeskOf posts.now.shared.table_id posts.now.shared.key self.new }
        ensures new { IfOk result (IsDeskOf posts.now.shared.table_id posts.now.shared.key) }
        ensures split { IfOk result (λ new. HasSplit party self.old.view self.new.view new.view) }
        ensures holds { IfOk result (λ new. HoldsParty party new.view) }
        ensures others { (agent : ℕ) → agent ≢ party → HoldsParty agent self.old.view → HoldsParty agent self.new.view }
        ensures err { OnErr result (self.new ≡ self.old) }
    {
        let alloc = *self.held.allocator();
        let agents = self.lists.len();
        let mut lists = StampedLists::new(alloc, agents)?;
        let mut held = marks(alloc, agents, false)?;
        let seat = parted(rt, posts, &mut self.seat, Agent::first(), party);
        move_party(
            alloc,
            &mut self.lists,
            &mut self.held,
            &mut lists,
            &mut held,
            party,
        );
        Ok(Desk {
            seat,
            lists,
            held,
            more: false,
        })
    }

    /// A desk with the parties of both, which has seen whom either has seen halted. It takes no memory, and never
    /// refuses.
    pub fn merge<R: Wait>(
        mut self,
        rt: &R,
        posts: &Posts,
        other: Desk,
    ) -> Result<Desk, (OutOfMemory, Desk, Desk)>
        requires posts { ArePosts posts.now.shared.table_id posts.now.shared.key }
        requires desk { IsDeskOf posts.now.shared.table_id posts.now.shared.key self }
        requires other { IsDeskOf posts.now.shared.table_id posts.now.shared.key other }
        ensures desk { IsOkAnd result (IsDeskOf posts.now.shared.table_id posts.now.shared.key) }
        ensures merged { IsOkAnd result (λ desk. HasMerged self.view other.view desk.view) }
        ensures holds { IsOkAnd result (λ desk. (agent : ℕ) → HoldsParty agent self.view → HoldsParty agent desk.view) }
        ensures takes_over { IsOkAnd result (λ desk. (agent : ℕ) → HoldsParty agent other.view → HoldsParty agent desk.view) }
    {
        let alloc = *self.held.allocator();
        let (seat, mut others, others_held) = other.into_parts();
        joined(rt, posts, &mut self.seat, Agent::first(), seat);
        take_over(
            alloc,
            &mut self.lists,
            &mut self.held,
            &mut others,
            others_held.as_slice(),
        );
        Ok(self)
    }
}
