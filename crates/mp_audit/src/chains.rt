//! Entries of a certificate, to be found by their states.

ghost use Rattle.std.specs.Prelude.{◌≡◌, ◌+◌, ◌<◌, length, replicate, slice_get, slice_index, slice_set, vec_len, All, IfOk, List, OnOk, Some};
ghost use Rattle.mp_task.specs.AgentTask.{AgentTask};
ghost use Rattle.mp_audit.specs.declared.certificate.Bound.{Bound as BoundParts};
ghost use Rattle.mp_audit.specs.Chains.{place_in, AreChained, IsFound};
ghost use Rattle.mp_audit.specs.Fits.{BoundFits};
ghost use Rattle.mp_audit.specs.States.{known_by, sized, state_for, HasSizes};

use crate::flat_bounds::FlatBounds;
use crate::same_state::is_entry_of;
use crate::state::JointSets;
use mp_list::{OutOfMemory, to_u32};
use mp_sets::{Agent, Bits};
use mp_task::Task;
use std::alloc::Global;
use std::hash::{FoldHasher, Hash, Hasher};

/// The first entries of a certificate, chained by the places of their states. They hold no state themselves.
#[derive(Drop)]
pub(crate) struct Chains {
    /// For each place the number of its last entry, counted from 1, or 0 where it has none.
    last: Vec<u32>,
    /// For each entry the number of the one before it in its place, counted from 1, or 0 where it is the first there.
    before: Vec<u32>,
}

/// The place of a state in the search of an agent among so many: that of their hash.
#[tactic(auto, unfolding(crate::specs::Chains::place_in))]
fn place_of(agent: Agent, state: &JointSets, places: usize) -> usize
    requires { 0 < places }
    ensures within { result < places }
    ensures place { result ≡ place_in places (sized agent state.now) }
{
    let mut hasher = FoldHasher::default();
    hasher.write_u16(agent.number());
    state.publics.hash(&mut hasher);
    Bits::hash_slice(state.privates.as_slice(), &mut hasher);
    (hasher.finish() % places as u64) as usize
}

/// The number in a place.
fn number_at(numbers: &[u32], place: usize) -> u32
    requires { place < length numbers.now }
    ensures { result ≡ slice_index numbers.now place }
{
    numbers[place]
}

/// Puts a number in a place.
fn put(numbers: &mut Vec<u32>, place: usize, number: u32)
    requires { place < vec_len numbers.old }
    ensures { numbers.new.items ≡ slice_set numbers.old.items place number }
{
    numbers[place] = number;
}

/// So many zeros. Refuses only for want of memory.
fn zeros(alloc: Global, count: usize) -> Result<Vec<u32>, OutOfMemory>
    ensures { IfOk result (λ numbers. numbers.items ≡ replicate count 0) }
{
    let numbers = vec![in alloc; 0u32; count]?;
    Ok(numbers)
}

/// No entries yet, with room for so many. Refuses only for want of memory.
pub(crate) fn no_chains(alloc: Global, entries: usize) -> Result<Chains, OutOfMemory>
    ensures chained { (tasks : List AgentTask) (bounds : List BoundParts)
        → IfOk result (AreChained tasks bounds) }
    ensures none { IfOk result (λ chains. length chains.before.items ≡ 0) }
{
    let places = entries.max(1);
    let last = zeros(alloc, places)?;
    let before = Vec::with_capacity(alloc, entries)?;
    Ok(Chains { last, before })
}

/// The entry that has a joint state in the search of an agent, by its place among the entries.
pub(crate) fn find(
    tasks: &[Task],
    bounds: &FlatBounds,
    chains: &Chains,
    agent: Agent,
    state: &JointSets,
) -> Option<usize>
    requires fits { All (BoundFits tasks.now) bounds.now.entries }
    requires chained { AreChained tasks.now bounds.now.entries chains.now }
    requires sizes { HasSizes tasks.now state.now }
    ensures { IsFound bounds.now.entries (length chains.now.before.items) (known_by agent state.now) result }
{
    let _ = tasks;
    let last = chains.last.as_slice();
    let before = chains.before.as_slice();
    let place = place_of(agent, state, last.len());
    let mut number = number_at(last, place);
    while number > 0 {
        let at = number as usize - 1;
        let bound = bounds.entry(at);
        if is_entry_of(&bound, agent, state) {
            return Some(at);
        }
        let earlier = number_at(before, at);
        number = earlier;
    }
    None
}

/// Adds the next entry, which has this agent and this state. Refuses only for want of memory.
pub(crate) fn add(chains: &mut Chains, agent: Agent, state: &JointSets) -> Result<(), OutOfMemory>
    requires { 0 < length chains.old.last.items }
    ensures chained { (tasks : List AgentTask) (bounds : List BoundParts) (b : BoundParts)
        → AreChained tasks bounds chains.old
        → slice_get bounds (length chains.old.before.items) ≡ Some b
        → sized agent state.now ≡ state_for tasks b
        → OnOk result (AreChained tasks bounds chains.new) }
    ensures more { OnOk result (length chains.new.before.items
        ≡ length chains.old.before.items + 1) }
{
    let last = chains.last.as_slice();
    let place = place_of(agent, state, last.len());
    let earlier = number_at(last, place);
    chains.before.push(earlier)?;
    let number = to_u32(chains.before.len())?;
    put(&mut chains.last, place, number);
    Ok(())
}
