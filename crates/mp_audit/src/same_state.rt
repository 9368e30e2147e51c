//! Whether an entry of a certificate has a joint state.

ghost use Rattle.std.specs.Prelude.{◌≡◌, ◌+◌, ◌<◌, ◌^◌, false, true, map, slice_get};
ghost use Rattle.std.specs.Bool.{Decides};
ghost use Rattle.std.specs.Cmp.Lexicographic.{pointwise};
ghost use Rattle.std.specs.List.Sorted.{IsStrictlyIncreasing};
ghost use Rattle.std.specs.Option.{option_copied, option_map_or};
ghost use Rattle.mp_sets.specs.Numbers.{same, HasNoneFrom, IsLeastFrom};
ghost use Rattle.mp_audit.specs.Audited.{known_of, same_known, set_of};
ghost use Rattle.mp_audit.specs.States.{known_by, members_of};

use crate::flat_bounds::FlatBound;
use crate::state::JointSets;
use mp_sets::{Agent, Bits};

/// Whether a fact is the least member of a set from a number on.
fn is_least(set: &Bits, from: u32, fact: u32) -> bool
    ensures least { Decides result (IsLeastFrom set.now.members from fact) }
    ensures fits { result ≡ true → fact + 1 < 2 ^ 32 }
{
    match set.least_from(from) {
        Some(least) => least == fact,
        None => false,
    }
}

/// Whether a set has no member from a number on.
fn has_none(set: &Bits, from: u32) -> bool
    ensures { Decides result (HasNoneFrom set.now.members from) }
{
    match set.least_from(from) {
        Some(_) => false,
        None => true,
    }
}

/// Whether facts that rise are the members of a set.
fn is_set(facts: &[u32], set: &Bits) -> bool
    requires { IsStrictlyIncreasing facts.now }
    ensures { result ≡ same (set_of facts.now) set.now.members }
{
    let mut from = 0;
    for fact in facts {
        if !is_least(set, from, *fact) {
            return false;
        }
        from = *fact + 1;
    }
    has_none(set, from)
}

/// The set in a place.
fn set_at(sets: &[Bits], place: usize) -> Option<&Bits>
    ensures { option_copied result ≡ slice_get sets.now place }
{
    sets.get(place)
}

/// Whether facts that rise are the members of the set in a place.
fn is_set_at(facts: &[u32], sets: &[Bits], place: usize) -> bool
    requires { IsStrictlyIncreasing facts.now }
    ensures { result ≡ option_map_or (λ s. same (set_of facts.now) s.members) (slice_get sets.now place) false }
{
    match set_at(sets, place) {
        Some(set) => is_set(facts, set),
        None => false,
    }
}

/// Whether the private facts of each agent are the members of the set in its place, and there is no other set.
fn are_sets(bound: &FlatBound<'_>, sets: &[Bits]) -> bool
    ensures { result ≡ pointwise same (map set_of bound.now.privates) (members_of sets.now) }
{
    let agents = bound.agents();
    for place in 0..agents {
        let facts = bound.privates_at(place);
        if !is_set_at(facts, sets, place) {
            return false;
        }
    }
    sets.len() <= agents
}

/// Whether an entry is that of a joint state in the search of an agent.
pub(crate) fn is_entry_of(bound: &FlatBound<'_>, agent: Agent, state: &JointSets) -> bool
    ensures { result ≡ same_known (known_of bound.now) (known_by agent state.now) }
{
    bound.agent() == agent
        && is_set(bound.publics(), &state.publics)
        && are_sets(bound, state.privates.as_slice())
}
