//! The cost below which a team can have no plan: each plan leaves an open entry, a goal entry or a state under way whose cost
//! and estimate together are at most the plan's cost.

use mp_list::OutOfMemory;
use mp_machine::Machine;
use mp_messages::{DecodeRefusal, EntryView, Log, Message, decode};
use mp_progress::{lesser, standing_of};
use mp_sets::Agent;
use mp_task::Heuristic;
use std::alloc::Global;

/// A place for each pair of numbers of agents.
const PAIRS: usize = 289;

/// The place of two agents.
fn pair(from: Agent, to: Agent) -> usize {
    usize::from(from.number()) * 17 + usize::from(to.number())
}

/// Counts one more at a place.
fn count_more(counts: &mut [u64], place: usize) {
    if place < counts.len() {
        counts[place] = counts[place].saturating_add(1);
    }
}

/// Counts one less at a place, where there is one: whether there was.
fn count_less(counts: &mut [u64], place: usize) -> bool {
    if place < counts.len() && 0 < counts[place] {
        counts[place] -= 1;
        return true;
    }
    false
}

/// Counts the messages that each agent took from each other one.
fn count_taken(counts: &mut [u64], log: &Log) {
    for at in 0..log.len() {
        if let EntryView::Took { by, from, .. } = log.entry(at) {
            count_more(counts, pair(from, by));
        }
    }
}

/// The bytes of the message that an entry of the log sent, where it is still under way: as many of the messages that its
/// sender sent to its receiver were taken as are counted, the oldest ones.
fn still_under_way<'a>(counts: &mut [u64], entry: &EntryView<'a>) -> Option<&'a [u8]> {
    match entry {
        EntryView::Put { from, to, bytes } => {
            if count_less(counts, pair(*from, *to)) {
                return None;
            }
            Some(*bytes)
        }
        _ => None,
    }
}

/// The cost and the estimate of a state together, where a message is one.
fn f_of(message: &Message) -> Option<u64> {
    match message {
        Message::State(state) => Some(state.g.saturating_add(state.h)),
        _ => None,
    }
}

/// The same of the bytes of a message, in a team of so many agents with so many public facts.
fn f_of_bytes(
    alloc: Global,
    agents: u16,
    publics: u32,
    bytes: &[u8],
) -> Result<Option<u64>, OutOfMemory> {
    match decode(alloc, agents, publics, bytes) {
        Ok(message) => Ok(f_of(&message)),
        Err(DecodeRefusal::NotAMessage) => Ok(None),
        Err(DecodeRefusal::OutOfMemory) => Err(OutOfMemory),
    }
}

/// The least cost that states under way at the end of a log allow.
fn least_under_way(
    alloc: Global,
    agents: u16,
    publics: u32,
    log: &Log,
) -> Result<Option<u64>, OutOfMemory> {
    let mut counts = [0u64; PAIRS];
    count_taken(&mut counts, log);
    let mut least = None;
    for at in 0..log.len() {
        if let Some(bytes) = still_under_way(&mut counts, &log.entry(at)) {
            least = lesser(least, f_of_bytes(alloc, agents, publics, bytes)?);
        }
    }
    Ok(least)
}

/// The least cost that entries of these machines allow.
fn least_of_entries<H: Heuristic>(machines: &[Machine<H>]) -> Option<u64> {
    let standing = standing_of(machines);
    lesser(standing.least, standing.goal)
}

/// The cost below which a team of these machines, with so many public facts and this log, can have no plan: none where it has
/// none at all.
pub(crate) fn least_cost<H: Heuristic>(
    alloc: Global,
    publics: u32,
    machines: &[Machine<H>],
    log: &Log,
) -> Result<Option<u64>, OutOfMemory> {
    let Ok(agents) = u16::try_from(machines.len()) else {
        return Ok(None);
    };
    let under_way = least_under_way(alloc, agents, publics, log)?;
    Ok(lesser(least_of_entries(machines), under_way))
}
