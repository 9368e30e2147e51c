//! Parties that are halted.

ghost use Rattle.std.specs.Prelude.{◌≡◌, ◌≢◌, ◌<◌, ◌≤◌, ◌+◌, ℕ, []};
ghost use Rattle.mp_post_rule.specs.Queues.{with_halted};
ghost use Rattle.mp_post_rule.specs.Table.{ArePosts, HasSlot, Holds, IsFree};
ghost use Rattle.mp_post_rule.specs.Views.{SeenAreMarked, after_halt, after_release, party_at};
ghost use Rattle.mp_post.specs.Desks.{HoldsParty, IsDeskOf};
ghost use Rattle.mp_post.specs.Halts.{HasHalted, HasHaltedAt};

use crate::desk::Desk;
use crate::locks::take_turn;
use mp_post_rule::{Kept, PostSeat, Posts, halt_party, release_turn};
use mp_sets::Agent;
use std::sync::Wait;

/// What a post keeps, with a party noted as halted where no other is.
fn noted(kept: Kept, by: Agent) -> Kept
    ensures { result ≡ with_halted by kept }
{
    let Kept { waiting, halted } = kept;
    match halted {
        Some(other) => Kept {
            waiting,
            halted: Some(other),
        },
        None => Kept {
            waiting,
            halted: Some(by),
        },
    }
}

/// Halts a party at a post whose turn the seat has, and releases the turn.
fn halt_here(posts: &Posts, seat: &mut PostSeat, post: Agent, by: Agent, kept: Kept)
    requires posts { ArePosts posts.now.shared.table_id posts.now.shared.key }
    requires table { seat.old.table_id ≡ posts.now.shared.table_id }
    requires post { post ≤ posts.now.shared.key }
    requires turn { Holds post kept seat.old.me.0 }
    requires slot { HasSlot post seat.old.me }
    requires held { HoldsParty by seat.old.me.0 }
    ensures same { seat.new.table_id ≡ seat.old.table_id }
    ensures me { seat.new.me ≡ (after_release (after_halt by seat.old.me.0), []) }
    ensures marks { SeenAreMarked seat.new.me.0 }
{
    let noted = noted(kept, by);
    halt_party(posts, seat, post, by, noted);
    release_turn(posts, seat, post);
}

/// Takes the turn of a post, and halts a party there.
fn halt_at<R: Wait>(rt: &R, posts: &Posts, seat: &mut PostSeat, post: Agent, by: Agent)
    requires posts { ArePosts posts.now.shared.table_id posts.now.shared.key }
    requires table { seat.old.table_id ≡ posts.now.shared.table_id }
    requires free { IsFree seat.old.me }
    requires post { post ≤ posts.now.shared.key }
    requires held { HoldsParty by seat.old.me.0 }
    ensures same { seat.new.table_id ≡ seat.old.table_id }
    ensures free { IsFree seat.new.me }
    ensures halted { HasHaltedAt by post seat.old.me.0 seat.new.me.0 }
{
    let kept = take_turn(rt, posts, seat, post);
    halt_here(posts, seat, post, by, kept);
}

/// The agent of a place, which counts from 0.
pub(crate) fn agent_at(place: usize) -> Agent
    requires { place < 16 }
    ensures { result ≡ place + 1 }
{
    Agent::new(place as u16 + 1).unwrap()
}

/// Halts a party at the posts of all agents, one after another.
fn halt_all<R: Wait>(rt: &R, posts: &Posts, seat: &mut PostSeat, agents: usize, by: Agent)
    requires posts { ArePosts posts.now.shared.table_id posts.now.shared.key }
    requires table { seat.old.table_id ≡ posts.now.shared.table_id }
    requires free { IsFree seat.old.me }
    requires held { HoldsParty by seat.old.me.0 }
    requires agents { agents ≡ posts.now.shared.key }
    ensures same { seat.new.table_id ≡ seat.old.table_id }
    ensures free { IsFree seat.new.me }
    ensures halted { HasHalted by agents seat.old.me.0 seat.new.me.0 }
{
    for place in 0..agents {
        halt_at(rt, posts, seat, agent_at(place), by);
    }
}

impl Desk {
    /// Marks a party in the desk as halted, takes the turns of all posts one after another, and notes the party as
    /// halted at each where none is noted. It takes no memory.
    pub fn halt<R: Wait>(&mut self, rt: &R, posts: &Posts, by: Agent)
        requires posts { ArePosts posts.now.shared.table_id posts.now.shared.key }
        requires desk { IsDeskOf posts.now.shared.table_id posts.now.shared.key self.old }
        requires held { HoldsParty by self.old.view }
        ensures desk { IsDeskOf posts.now.shared.table_id posts.now.shared.key self.new }
        ensures halted { HasHalted by posts.now.shared.key self.old.view self.new.view }
        ensures others { (agent : ℕ) → agent ≢ by → party_at self.new.view agent ≡ party_at self.old.view agent }
        ensures holds { (agent : ℕ) → HoldsParty agent self.old.view → HoldsParty agent self.new.view }
    {
        let agents = posts.slot_count();
        halt_all(rt, posts, &mut self.seat, agents, by);
    }
}
