//! Desks.

ghost use Rattle.std.specs.Prelude.{◌≡◌, ◌<◌, ◌-◌, [], length, slice_index_or, slice_set};
ghost use Rattle.mp_post_rule.specs.Table.{IsFree};
ghost use Rattle.mp_post.specs.Desks.{HasLists};

use mp_post_rule::PostSeat;
use mp_sets::Agent;
use mp_stamps::{Stamped, StampedList, StampedLists};
use std::alloc::Global;
use std::marker::Model;

/// A seat at the posts, and what each of its parties signed. Contracts see it as what it knows of the posts.
pub struct Desk {
    pub(crate) seat: PostSeat,
    /// What each agent signed, an empty list for each whom another desk holds.
    pub(crate) lists: StampedLists,
    /// Whom the desk holds.
    pub(crate) held: Vec<bool>,
    /// Whether another message waited behind the one that was handed over last.
    pub(crate) more: bool,
}

impl Drop for Desk {
    fn drop(self) {
        let Desk {
            seat: _,
            lists: _,
            held: _,
            more: _,
        } = self;
    }
}

impl Model for Desk {
    ghost use Rattle.mp_post_rule.specs.Table.{IsFree};
    ghost use Rattle.mp_post.specs.Desks.{HasLists, SeenDesk};

    ghost Value = { SeenDesk };

    ghost view = { λ d. record { table = d.seat.table_id; view = d.seat.me.0 } };

    ghost invariant = { λ d. IsFree d.seat.me × HasLists d.lists d.held.items d.seat.me.0 };
}

impl Desk {
    /// The seat, the lists and the marks.
    pub(crate) fn into_parts(self) -> (PostSeat, StampedLists, Vec<bool>)
        ensures table { result.0.table_id ≡ self.table }
        ensures view { result.0.me.0 ≡ self.view }
        ensures free { IsFree result.0.me }
        ensures lists { HasLists result.1 result.2.items result.0.me.0 }
    {
        let Desk {
            seat,
            lists,
            held,
            more: _,
        } = self;
        (seat, lists, held)
    }

    /// Whether another message waited for the party that a turn of the desk handed one over to last, behind that one, at the same post.
    /// It only says when it is worth while to look there again.
    pub fn has_more(&self) -> bool {
        self.more
    }
}

/// What an agent signed, out of its place.
pub(crate) fn take_own(alloc: Global, lists: &mut StampedLists, agent: Agent) -> Vec<Stamped>
    requires { agent - 1 < length lists.old }
    ensures own { result.items ≡ slice_index_or lists.old (agent - 1) [] }
    ensures others { lists.new ≡ slice_set lists.old (agent - 1) [] }
{
    let place = usize::from(agent.number()) - 1;
    lists.replace(place, StampedList::new(alloc)).into_items()
}

/// Puts what an agent signed into its place.
pub(crate) fn put_own(lists: &mut StampedLists, agent: Agent, own: Vec<Stamped>)
    requires { agent - 1 < length lists.old }
    ensures { lists.new ≡ slice_set lists.old (agent - 1) own.items }
{
    let place = usize::from(agent.number()) - 1;
    lists.replace(place, StampedList::from_items(own));
}
