//! Parties that go from the lists of one desk to those of another.

ghost use Rattle.std.specs.Prelude.{◌≡◌, ◌<◌, ◌-◌, ℕ, [], false, true, length, slice_index_or, slice_set};
ghost use Rattle.mp_post_rule.specs.declared.view.View.{View as ViewValue};
ghost use Rattle.mp_post_rule.specs.Views.{together};
ghost use Rattle.mp_post.specs.Desks.{HasLists};
ghost use Rattle.mp_post.specs.Moves.{chosen, either_mark};

use mp_sets::Agent;
use mp_stamps::{StampedList, StampedLists};
use std::alloc::Global;

/// A party and its list go from one desk to another, which had an empty list in its place.
pub(crate) fn move_party(
    alloc: Global,
    lists: &mut StampedLists,
    held: &mut Vec<bool>,
    new: &mut StampedLists,
    new_held: &mut Vec<bool>,
    party: Agent,
)
    requires lists { (party - 1 < length lists.old) × (party - 1 < length held.old.items) }
    requires new { (party - 1 < length new.old) × (party - 1 < length new_held.old.items) }
    ensures lists { lists.new ≡ slice_set lists.old (party - 1) [] }
    ensures held { held.new.items ≡ slice_set held.old.items (party - 1) false }
    ensures new { new.new ≡ slice_set new.old (party - 1) (slice_index_or lists.old (party - 1) []) }
    ensures new_held { new_held.new.items ≡ slice_set new_held.old.items (party - 1) true }
{
    let place = usize::from(party.number()) - 1;
    let list = lists.replace(place, StampedList::new(alloc));
    new.replace(place, list);
    held[place] = false;
    new_held[place] = true;
}

/// A party goes from one desk to another that does not hold it.
fn take_place(
    alloc: Global,
    lists: &mut StampedLists,
    held: &mut Vec<bool>,
    others: &mut StampedLists,
    other_held: bool,
    place: usize,
)
    requires lists { (place < length lists.old) × (place < length held.old.items) }
    requires others { place < length others.old }
    ensures lists { lists.new ≡ slice_set lists.old place (chosen (slice_index_or held.old.items place false) other_held
        (slice_index_or lists.old place []) (slice_index_or others.old place [])) }
    ensures held { held.new.items ≡ slice_set held.old.items place (either_mark (slice_index_or held.old.items place false) other_held) }
    ensures others { (k : ℕ) → place < k → slice_index_or others.new k [] ≡ slice_index_or others.old k [] }
    ensures many { length others.new ≡ length others.old }
{
    if held[place] {
        return;
    }
    if other_held {
        let list = others.replace(place, StampedList::new(alloc));
        lists.replace(place, list);
        held[place] = true;
    }
}

/// Whether a desk holds the party of a place.
fn is_held(held: &[bool], place: usize) -> bool
    requires { place < length held.now }
    ensures { result ≡ slice_index_or held.now place false }
{
    held[place]
}

/// All parties of one desk go to another.
pub(crate) fn take_over(
    alloc: Global,
    lists: &mut StampedLists,
    held: &mut Vec<bool>,
    others: &mut StampedLists,
    others_held: &[bool],
)
    requires many { (length held.old.items ≡ length lists.old) × (length others.old ≡ length lists.old)
        × (length others_held.now ≡ length lists.old) }
    ensures { (v w : ViewValue) → HasLists lists.old held.old.items v → HasLists others.old others_held.now w
        → HasLists lists.new held.new.items (together v w) }
{
    for place in 0..others_held.len() {
        let other_held = is_held(others_held, place);
        take_place(alloc, lists, held, others, other_held, place);
    }
}
