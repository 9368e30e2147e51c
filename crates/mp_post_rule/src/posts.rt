//! The table of the posts, and the steps that seats make at it.

ghost use Rattle.std.specs.Prelude.{◌≡◌, ◌≤◌, ◌<◌, ◌==◌, ◌+◌, ◌-◌, ◌*◌, ℕ, [], ◌∷◌, All, length, replicate, None, Some, IfOk, MatchBool};
ghost use mathlib.Core.Option.{none};
ghost use Rattle.atomic_table.specs.Table.{step};
ghost use Rattle.crossbeam_utils.specs.Padded.{padded_value};
ghost use Rattle.mp_stamps.specs.Lists.{Matched};
ghost use Rattle.mp_post_rule.specs.declared.kept.Kept.{Kept as KeptValue};
ghost use Rattle.mp_post_rule.specs.declared.kept.Slot.{Slot as SlotValue};
ghost use Rattle.mp_post_rule.specs.declared.view.Party.{Party as PartyValue};
ghost use Rattle.mp_post_rule.specs.Kinds.{HoldsAll, IsTaken};
ghost use Rattle.mp_post_rule.specs.Queues.{count_puts};
ghost use Rattle.mp_post_rule.specs.Rule.{kept_in};
ghost use Rattle.mp_post_rule.specs.Table.{ArePosts, HasSlot, HasValue, Holds, IsFree, IsLaid, MayReceive, MaySign};
ghost use Rattle.mp_post_rule.specs.Views.{SeenAreMarked, after_halt, after_receipt, after_release, after_signing, alone, first_view, lists_of, no_mail, party_at, together, without};

use crate::kept::{Kept, Queues, Slot};
use crate::rule::{Apart, Halt, Look, Posts, Receive, Release, Sign, Together, Try};
use crate::view::View;
use atomic_table::{Refused, Seat, Table};
use crossbeam_utils::CachePadded;
use mp_list::OutOfMemory;
use mp_messages::Entries;
use mp_sets::Agent;
use std::alloc::Global;
use std::snapshot::Snapshot;

/// What one thread steps with. It has no bytes.
pub type PostSeat = Seat<CachePadded<Slot>, View>;

/// The posts of so many agents, at which nothing waits, and a seat that holds all parties. Refuses only
/// for want of memory.
pub fn open_posts(alloc: Global, agents: u16) -> Result<(Posts, PostSeat), OutOfMemory>
    requires { (1 ≤ agents) × (agents ≤ 16) }
    ensures { IfOk result (λ r. ArePosts r.0.shared.table_id r.0.shared.key × (r.0.shared.key ≡ agents)
        × (r.1.table_id ≡ r.0.shared.table_id) × (r.1.me ≡ (first_view agents, []))) }
{
    let count = usize::from(agents);
    let words = zeros(alloc, 2 * count)?;
    let slots = empty_slots(alloc, count)?;
    match Table::new(alloc, words.as_slice(), slots, &agents) {
        Ok((table, seat)) => Ok((table, seat)),
        Err(refused) => {
            let Refused { slots: _ } = refused;
            Err(OutOfMemory)
        }
    }
}

/// Tries to take the turn of a post: whether it did. Then the post's slot is in hand.
pub fn try_turn(posts: &Posts, seat: &mut PostSeat, post: Agent) -> bool
    requires posts { ArePosts posts.now.shared.table_id posts.now.shared.key }
    requires table { seat.old.table_id ≡ posts.now.shared.table_id }
    requires post { post ≤ posts.now.shared.key }
    requires free { IsFree seat.old.me }
    ensures same { (seat.new.table_id ≡ seat.old.table_id) × (seat.new.id ≡ seat.old.id) }
    ensures told { MatchBool result (IsTaken post posts.now.shared.key seat.old.me seat.new.me)
        (seat.new.me ≡ seat.old.me) }
{
    posts
        .shared
        .compare_exchange::<Try>(seat, turn_word(post), 0, 1)
        == 0
}

/// What the post keeps, out of the slot in hand.
pub fn lift(posts: &Posts, seat: &mut PostSeat, post: Agent) -> Kept
    requires posts { ArePosts posts.now.shared.table_id posts.now.shared.key }
    requires table { seat.old.table_id ≡ posts.now.shared.table_id }
    requires value { (kept : KeptValue) × HasValue post kept seat.old.me }
    ensures same { (seat.new.table_id ≡ seat.old.table_id) × (seat.new.id ≡ seat.old.id) }
    ensures value { HasValue post result seat.old.me }
    ensures slot { HasSlot post seat.new.me }
    ensures view { seat.new.me.0 ≡ seat.old.me.0 }
{
    let empty = Slot {
        kept: None,
        by: post,
        signs: None,
    };
    kept_of(lay(posts, seat, post, empty))
}

/// Puts a value into the slot in hand, in place of what was there.
fn lay(posts: &Posts, seat: &mut PostSeat, post: Agent, slot: Slot) -> CachePadded<Slot>
    requires posts { ArePosts posts.now.shared.table_id posts.now.shared.key }
    requires table { seat.old.table_id ≡ posts.now.shared.table_id }
    requires slot { HasSlot post seat.old.me }
    ensures same { (seat.new.table_id ≡ seat.old.table_id) × (seat.new.id ≡ seat.old.id) }
    ensures laid { IsLaid post slot seat.old.me seat.new.me }
    ensures before { seat.old.me.1 ≡ (post - 1, result) ∷ [] }
{
    posts
        .shared
        .exchange(seat, place_of(post), CachePadded::new(slot))
}

/// Puts what the post keeps into the slot in hand.
pub fn put_back(posts: &Posts, seat: &mut PostSeat, post: Agent, kept: Kept)
    requires posts { ArePosts posts.now.shared.table_id posts.now.shared.key }
    requires table { seat.old.table_id ≡ posts.now.shared.table_id }
    requires slot { HasSlot post seat.old.me }
    ensures same { (seat.new.table_id ≡ seat.old.table_id) × (seat.new.id ≡ seat.old.id) }
    ensures value { HasValue post kept seat.new.me }
    ensures view { seat.new.me.0 ≡ seat.old.me.0 }
{
    let slot = Slot {
        kept: Some(kept),
        by: post,
        signs: None,
    };
    lay(posts, seat, post, slot);
}

/// Signs a batch of a party at its own post, whose turn the seat holds, and puts what the post keeps
/// then into the slot in hand. The batch puts so many messages.
pub fn sign_batch(
    posts: &Posts,
    seat: &mut PostSeat,
    by: Agent,
    kept: Kept,
    batch: &Entries,
    puts: u64,
)
    requires posts { ArePosts posts.now.shared.table_id posts.now.shared.key }
    requires table { seat.old.table_id ≡ posts.now.shared.table_id }
    requires post { by ≤ posts.now.shared.key }
    requires turn { (noted : KeptValue) × Holds by noted seat.old.me.0 }
    requires slot { HasSlot by seat.old.me }
    requires may { MaySign posts.now.shared.key by batch.now seat.old.me.0 }
    requires puts { puts ≡ count_puts batch.now }
    ensures same { (seat.new.table_id ≡ seat.old.table_id) × (seat.new.id ≡ seat.old.id) }
    ensures view { seat.new.me.0 ≡ after_signing by batch.now seat.old.me.0 }
    ensures value { HasValue by kept seat.new.me }
{
    let slot = Slot {
        kept: Some(kept),
        by,
        signs: Some(Snapshot::of(batch)),
    };
    lay(posts, seat, by, slot);
    posts.shared.fetch_add::<Sign>(seat, count_word(by), puts);
}

/// Halts a party at a post whose turn the seat holds, and puts what the post keeps then into the slot in
/// hand.
pub fn halt_party(posts: &Posts, seat: &mut PostSeat, post: Agent, by: Agent, kept: Kept)
    requires posts { ArePosts posts.now.shared.table_id posts.now.shared.key }
    requires table { seat.old.table_id ≡ posts.now.shared.table_id }
    requires post { post ≤ posts.now.shared.key }
    requires turn { (noted : KeptValue) × Holds post noted seat.old.me.0 }
    requires slot { HasSlot post seat.old.me }
    requires held { (p : PartyValue) × (party_at seat.old.me.0 by ≡ Some p) }
    ensures same { (seat.new.table_id ≡ seat.old.table_id) × (seat.new.id ≡ seat.old.id) }
    ensures view { seat.new.me.0 ≡ after_halt by seat.old.me.0 }
    ensures value { HasValue post kept seat.new.me }
{
    let slot = Slot {
        kept: Some(kept),
        by,
        signs: None,
    };
    lay(posts, seat, post, slot);
    posts.shared.fetch_add::<Halt>(seat, count_word(post), 0);
}

/// Signs the receipt of the oldest message that waits for a party at a post whose turn the seat holds,
/// and puts what the post keeps then into the slot in hand.
pub fn sign_receipt(posts: &Posts, seat: &mut PostSeat, post: Agent, by: Agent, kept: Kept)
    requires posts { ArePosts posts.now.shared.table_id posts.now.shared.key }
    requires table { seat.old.table_id ≡ posts.now.shared.table_id }
    requires post { post ≤ posts.now.shared.key }
    requires by { by ≤ posts.now.shared.key }
    requires may { (noted : KeptValue) × Holds post noted seat.old.me.0
        × MayReceive by post noted seat.old.me.0 }
    requires slot { HasSlot post seat.old.me }
    ensures same { (seat.new.table_id ≡ seat.old.table_id) × (seat.new.id ≡ seat.old.id) }
    ensures view { seat.new.me.0 ≡ after_receipt by seat.old.me.0 }
    ensures value { HasValue post kept seat.new.me }
{
    let _ = by.number();
    let slot = Slot {
        kept: Some(kept),
        by,
        signs: None,
    };
    lay(posts, seat, post, slot);
    posts.shared.fetch_add::<Receive>(seat, count_word(post), 1);
}

/// Releases the turn of a post, in whose slot is what the seat notes for it.
pub fn release_turn(posts: &Posts, seat: &mut PostSeat, post: Agent)
    requires posts { ArePosts posts.now.shared.table_id posts.now.shared.key }
    requires table { seat.old.table_id ≡ posts.now.shared.table_id }
    requires post { post ≤ posts.now.shared.key }
    requires value { (kept : KeptValue) × Holds post kept seat.old.me.0 × HasValue post kept seat.old.me }
    ensures same { (seat.new.table_id ≡ seat.old.table_id) × (seat.new.id ≡ seat.old.id) }
    ensures me { seat.new.me ≡ (after_release seat.old.me.0, []) }
    ensures marks { SeenAreMarked seat.new.me.0 }
{
    posts.shared.store::<Release>(seat, turn_word(post), 0);
}

fn split_off<const PARTY: u16>(posts: &Posts, seat: &mut PostSeat) -> PostSeat
    requires posts { ArePosts posts.now.shared.table_id posts.now.shared.key }
    requires table { seat.old.table_id ≡ posts.now.shared.table_id }
    requires held { (p : PartyValue) × (party_at seat.old.me.0 PARTY ≡ Some p) }
    ensures kept { (seat.new.table_id ≡ seat.old.table_id)
        × (seat.new.me ≡ (without PARTY seat.old.me.0, seat.old.me.1)) }
    ensures new { (result.table_id ≡ seat.old.table_id) × (result.me ≡ (alone PARTY seat.old.me.0, [])) }
{
    posts.shared.split_seat::<Apart<PARTY>>(seat)
}

/// A party goes to a new seat.
pub fn split_party(posts: &Posts, seat: &mut PostSeat, party: Agent) -> PostSeat
    requires posts { ArePosts posts.now.shared.table_id posts.now.shared.key }
    requires table { seat.old.table_id ≡ posts.now.shared.table_id }
    requires held { (p : PartyValue) × (party_at seat.old.me.0 party ≡ Some p) }
    ensures kept { (seat.new.table_id ≡ seat.old.table_id)
        × (seat.new.me ≡ (without party seat.old.me.0, seat.old.me.1)) }
    ensures new { (result.table_id ≡ seat.old.table_id) × (result.me ≡ (alone party seat.old.me.0, [])) }
{
    match party.number() {
        1 => split_off::<1>(posts, seat),
        2 => split_off::<2>(posts, seat),
        3 => split_off::<3>(posts, seat),
        4 => split_off::<4>(posts, seat),
        5 => split_off::<5>(posts, seat),
        6 => split_off::<6>(posts, seat),
        7 => split_off::<7>(posts, seat),
        8 => split_off::<8>(posts, seat),
        9 => split_off::<9>(posts, seat),
        10 => split_off::<10>(posts, seat),
        11 => split_off::<11>(posts, seat),
        12 => split_off::<12>(posts, seat),
        13 => split_off::<13>(posts, seat),
        14 => split_off::<14>(posts, seat),
        15 => split_off::<15>(posts, seat),
        _ => split_off::<16>(posts, seat),
    }
}

/// A seat takes over the parties of another, which holds no turn, and what that has seen.
pub fn join_seats(posts: &Posts, seat: &mut PostSeat, other: PostSeat)
    requires posts { ArePosts posts.now.shared.table_id posts.now.shared.key }
    requires table { (seat.old.table_id ≡ posts.now.shared.table_id) × (other.table_id ≡ posts.now.shared.table_id) }
    requires free { IsFree other.me }
    ensures same { (seat.new.table_id ≡ seat.old.table_id) × (seat.new.id ≡ seat.old.id) }
    ensures me { seat.new.me ≡ (together seat.old.me.0 other.me.0, seat.old.me.1) }
{
    posts.shared.join_seat::<Together>(seat, other);
}

/// A look, which changes nothing: where the seat holds all parties, their lists fit each other.
pub fn look_at_lists(posts: &Posts, seat: &mut PostSeat)
    requires posts { ArePosts posts.now.shared.table_id posts.now.shared.key }
    requires table { seat.old.table_id ≡ posts.now.shared.table_id }
    ensures same { (seat.new.table_id ≡ seat.old.table_id) × (seat.new.id ≡ seat.old.id) }
    ensures me { seat.new.me ≡ seat.old.me }
    ensures lists { HoldsAll (posts.now.shared.key) seat.old.me.0 → Matched (lists_of seat.old.me.0) }
{
    posts.shared.load::<Look>(seat, 0);
}

/// The word of a post's turn.
fn turn_word(post: Agent) -> usize
    ensures { (result ≡ 2 * post - 2) × (1 ≤ post) }
{
    2 * usize::from(post.number()) - 2
}

/// The word of a post's count.
fn count_word(post: Agent) -> usize
    ensures { (result ≡ 2 * post - 1) × (1 ≤ post) }
{
    2 * usize::from(post.number()) - 1
}

/// The place of a post's slot.
fn place_of(post: Agent) -> usize
    ensures { (result ≡ post - 1) × (1 ≤ post) }
{
    usize::from(post.number()) - 1
}

/// What a post keeps, out of its slot.
fn kept_of(home: CachePadded<Slot>) -> Kept
    requires { (kept : KeptValue) × (kept_in home ≡ Some kept) }
    ensures { kept_in home ≡ Some result }
{
    let slot = home.into_inner();
    let Slot {
        kept,
        by: _,
        signs: _,
    } = slot;
    match kept {
        Some(kept) => kept,
        None => unreachable!(),
    }
}

fn zeros(alloc: Global, count: usize) -> Result<Vec<u64>, OutOfMemory>
    ensures { IfOk result (λ v. v.items ≡ replicate count 0) }
{
    let mut words = Vec::with_capacity(alloc, count)?;
    for _ in 0..count {
        words.push(0)?;
    }
    Ok(words)
}

/// A slot at which nothing waits for any of so many agents.
fn empty_slot(alloc: Global, agents: usize) -> Result<CachePadded<Slot>, OutOfMemory>
    ensures { IfOk result (λ home. kept_in home ≡ Some (no_mail agents)) }
{
    let waiting = Queues::new(alloc, agents)?;
    let kept = Kept {
        waiting,
        halted: None,
    };
    Ok(CachePadded::new(Slot {
        kept: Some(kept),
        by: Agent::first(),
        signs: None,
    }))
}

fn empty_slots(alloc: Global, agents: usize) -> Result<Vec<CachePadded<Slot>>, OutOfMemory>
    ensures count { IfOk result (λ v. length v.items ≡ agents) }
    ensures each { IfOk result (λ v. All (λ home. kept_in home ≡ Some (no_mail agents)) v.items) }
{
    let mut slots = Vec::with_capacity(alloc, agents)?;
    for _ in 0..agents {
        slots.push(empty_slot(alloc, agents)?)?;
    }
    Ok(slots)
}

/// Values of this type may go to another thread.
fn sends<T: Send>() {}

/// Values of this type may be shared by threads.
fn shares<T: Sync>() {}

/// Seats and posts cross threads.
pub fn posts_cross_threads() {
    sends::<PostSeat>();
    sends::<Posts>();
    shares::<Posts>();
}
