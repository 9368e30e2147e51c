//! How a state from another agent is received.

ghost use Rattle.std.specs.Prelude.{◌≡◌, ◌-◌, ℕ, false, not, if◌then◌else◌, OnOk, IfOk, slice_index_or};
ghost use Rattle.std.specs.FinSet as set;
ghost use Rattle.mp_task.specs.Met.{is_met};
ghost use Rattle.mp_messages.specs.Parts.{parts, parts_of};
ghost use Rattle.mp_store.specs.declared.entry.Origin.TheVariants.{From};
ghost use Rattle.mp_search.specs.AgentState as agents;
ghost use Rattle.mp_search.specs.AgentState.{no_tag};
ghost use Rattle.mp_search.specs.Memory.{lacks_memory_for};
ghost use Rattle.mp_search.specs.Offering.{offered_at};
ghost use Rattle.mp_search.specs.Receipt.{greater_value, receipt, receipt_of_bytes, IsStateFor};
ghost use Rattle.mp_search.specs.StateKeys.{reached_state, HasSizes};
ghost use Rattle.mp_search.specs.Steps.{AreStatesOf};

use crate::answer::{ReceiveRefusal, Received};
use crate::concern::is_met;
use crate::context::Progress;
use crate::offering::offer;
use crate::reached::Reached;
use crate::states::Arrival;
use mp_list::{Copied, OutOfMemory};
use mp_messages::{State, StateNumbers, decode_state_into};
use mp_sets::{Agent, Bits, BitsView, Tag, Tags};
use mp_store::{Key, Origin};
use mp_task::{Heuristic, Task};
use std::alloc::Global;

/// The tag that tells nothing.
pub(crate) const NO_TAG: Tag = Tag {
    token: 0,
    met: false,
};

/// The tag in an agent's place.
fn tag_of(agent: Agent, tags: &Tags) -> Tag
    ensures { result ≡ slice_index_or tags.now (agent - 1) no_tag }
{
    match tags.get(agent.number() as usize - 1) {
        Some(tag) => *tag,
        None => NO_TAG,
    }
}

/// Whether the met byte of a tag is that of a set.
fn is_byte_right(task: &Task, tag: Tag, mine: &BitsView<'_>) -> bool
    requires { mine.now.size ≡ task.now.privates }
    ensures { result ≡ (if tag.met then is_met task.now mine.now.members else not (is_met task.now mine.now.members)) }
{
    if tag.met {
        return is_met(task, mine);
    }
    !is_met(task, mine)
}

/// A state whose facts and tags are as they came becomes that of the receiver, with an own set and without its own tag.
fn enter(task: &Task, mine: &BitsView<'_>, state: &mut Reached)
    requires size { mine.now.size ≡ task.now.privates }
    requires sizes { HasSizes task.now.publics task.now.privates state.old }
    ensures state { reached_state state.new ≡ record {
      publics = state.old.key.publics.members;
      mine = mine.now.members;
      tags = agents.with_tag state.old.key.tags task.now.me no_tag;
    } }
    ensures sizes { HasSizes task.now.publics task.now.privates state.new }
{
    state.mine.copy_from_view(mine);
    state.key.tags.set(task.me.number() as usize - 1, NO_TAG);
}

/// The greater of an estimate and the heuristic's, if that has one.
fn greater<H: Heuristic>(
    task: &Task,
    heuristic: &mut H,
    h: u64,
    state: &Reached,
) -> Result<Option<u64>, OutOfMemory>
    requires heuristic { H.is_for heuristic.old task.now }
    requires sizes { HasSizes task.now.publics task.now.privates state.now }
    ensures value { IfOk result (λ found. found ≡ greater_value task.now (H.value task.now) h (reached_state state.now)) }
    ensures heuristic { H.is_for heuristic.new task.now }
{
    let _ = task;
    match heuristic.value(&state.key.publics, &state.mine)? {
        Some(own) => Ok(Some(h.max(own))),
        None => Ok(None),
    }
}

/// Offers a state that came from another agent.
fn offer_received<H: Heuristic>(
    task: &Task,
    progress: &mut Progress<H>,
    from: Agent,
    numbers: StateNumbers,
    state: &mut Reached,
) -> Result<Received, OutOfMemory>
    requires heuristic { H.is_for progress.old.heuristic task.now }
    requires states { AreStatesOf task.now progress.old.states }
    requires sizes { HasSizes task.now.publics task.now.privates state.old }
    ensures received { IfOk result (λ answer. (answer, progress.new.states.kept)
        ≡ offered_at task.now (reached_state state.old) numbers.g
        (greater_value task.now (H.value task.now) numbers.h (reached_state state.old)) (From from numbers.sent)
        progress.old.states.kept) }
    ensures states { OnOk result (AreStatesOf task.now progress.new.states) }
    ensures sizes { HasSizes task.now.publics task.now.privates state.new }
    ensures heuristic { H.is_for progress.new.heuristic task.now }
{
    let Some(h) = greater(task, &mut progress.heuristic, numbers.h, state)? else {
        return Ok(Received::Dead);
    };
    let arrival = Arrival {
        g: numbers.g,
        h,
        origin: Origin::From {
            agent: from,
            sent: numbers.sent,
        },
    };
    offer(task, &mut progress.states, state, arrival)
}

/// Receives a state from another agent, whose facts and tags are as they came.
fn receive_read<H: Heuristic>(
    task: &Task,
    progress: &mut Progress<H>,
    from: Agent,
    numbers: StateNumbers,
    state: &mut Reached,
) -> Result<Received, ReceiveRefusal>
    requires heuristic { H.is_for progress.old.heuristic task.now }
    requires states { AreStatesOf task.now progress.old.states }
    requires sizes { HasSizes task.now.publics task.now.privates state.old }
    ensures receipt { (m : State) → parts numbers state.old.key.publics.members state.old.key.tags ≡ parts_of m
        → (expansions : ℕ) → lacks_memory_for result ≡ false
        → (result, record { kept = progress.new.states.kept; expansions = expansions })
        ≡ receipt task.now (H.value task.now) from m (record { kept = progress.old.states.kept; expansions = expansions }) }
    ensures states { lacks_memory_for result ≡ false → AreStatesOf task.now progress.new.states }
    ensures sizes { HasSizes task.now.publics task.now.privates state.new }
    ensures heuristic { H.is_for progress.new.heuristic task.now }
{
    let tag = tag_of(task.me, &state.key.tags);
    let Some(mine) = progress.states.own_set(tag.token) else {
        return Err(ReceiveRefusal::UnknownToken);
    };
    if !is_byte_right(task, tag, &mine) {
        return Err(ReceiveRefusal::WrongByte);
    }
    enter(task, &mine, state);
    Ok(offer_received(task, progress, from, numbers, state)?)
}

/// A state with the facts and the tags of a message, as they came.
fn as_it_came(alloc: Global, task: &Task, message: &State) -> Result<Reached, OutOfMemory>
    requires { IsStateFor task.now message.now }
    ensures facts { IfOk result (λ made. made.key.publics.members ≡ set.from_list message.now.facts) }
    ensures tags { IfOk result (λ made. made.key.tags ≡ message.now.tags) }
    ensures sizes { IfOk result (HasSizes task.now.publics task.now.privates) }
{
    Ok(Reached {
        key: Key {
            publics: Bits::from_list(alloc, task.publics, &message.facts)?,
            mine: 0,
            tags: message.tags.copy()?,
        },
        mine: Bits::new(alloc, task.privates)?,
    })
}

/// Receives a state from another agent.
pub(crate) fn receive_state<H: Heuristic>(
    alloc: Global,
    task: &Task,
    progress: &mut Progress<H>,
    from: Agent,
    message: &State,
) -> Result<Received, ReceiveRefusal>
    requires heuristic { H.is_for progress.old.heuristic task.now }
    requires states { AreStatesOf task.now progress.old.states }
    requires state { IsStateFor task.now message.now }
    ensures receipt { (expansions : ℕ) → lacks_memory_for result ≡ false
        → (result, record { kept = progress.new.states.kept; expansions = expansions })
        ≡ receipt task.now (H.value task.now) from message.now
        (record { kept = progress.old.states.kept; expansions = expansions }) }
    ensures states { lacks_memory_for result ≡ false → AreStatesOf task.now progress.new.states }
    ensures heuristic { H.is_for progress.new.heuristic task.now }
{
    let mut state = as_it_came(alloc, task, message)?;
    let numbers = StateNumbers {
        sent: message.sent,
        g: message.g,
        h: message.h,
    };
    receive_read(task, progress, from, numbers, &mut state)
}

/// Receives the state that bytes from another agent spell, and tells the sum of its cost and estimate: none exactly
/// where they spell no state. Its facts and tags are read into a state that is there.
pub(crate) fn receive_bytes<H: Heuristic>(
    task: &Task,
    progress: &mut Progress<H>,
    state: &mut Reached,
    from: Agent,
    bytes: &[u8],
) -> Result<Option<(Received, u64)>, ReceiveRefusal>
    requires heuristic { H.is_for progress.old.heuristic task.now }
    requires states { AreStatesOf task.now progress.old.states }
    requires sizes { HasSizes task.now.publics task.now.privates state.old }
    ensures receipt { (expansions : ℕ) → lacks_memory_for result ≡ false
        → (result, record { kept = progress.new.states.kept; expansions = expansions })
        ≡ receipt_of_bytes task.now (H.value task.now) from bytes.now
        (record { kept = progress.old.states.kept; expansions = expansions }) }
    ensures states { lacks_memory_for result ≡ false → AreStatesOf task.now progress.new.states }
    ensures sizes { HasSizes task.now.publics task.now.privates state.new }
    ensures heuristic { H.is_for progress.new.heuristic task.now }
{
    let facts = &mut state.key.publics;
    let tags = &mut state.key.tags;
    let Some(numbers) = decode_state_into(task.agents, bytes, facts, tags)? else {
        return Ok(None);
    };
    match receive_read(task, progress, from, numbers, state) {
        Ok(answer) => Ok(Some((answer, numbers.g + numbers.h))),
        Err(refusal) => Err(refusal),
    }
}
