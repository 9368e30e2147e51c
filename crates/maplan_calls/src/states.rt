//! Agents, sets and tags of a line.

ghost use Rattle.std.specs.Prelude.{◌≡◌, IfOk};

use crate::lines::{long, number_at, short};
use mp_list::OutOfMemory;
use mp_sets::{Agent, Bits, Tag, Tags};
use std::alloc::Global;

/// The agent of the number at a place, and the first one where there is none.
pub(crate) fn agent_at(text: &str, place: usize) -> Agent {
    match Agent::new(short(text, place).min(99) as u16) {
        Some(agent) => agent,
        None => Agent::first(),
    }
}

/// Puts the number of a word into a set, counted from `from` on, if it is below its size.
fn insert(set: &mut Bits, word: &str, from: u32)
    ensures { set.new.size ≡ set.old.size }
{
    let number = short(word, 0);
    if number >= from && number - from < set.size() {
        set.insert(number - from);
    }
}

/// The set of the numbers of a text from `from` on, as numbers from 0 on, that are below a size.
pub(crate) fn set_of(alloc: Global, size: u32, text: &str, from: u32) -> Result<Bits, OutOfMemory>
    ensures { IfOk result (λ set. set.size ≡ size) }
{
    let mut set = Bits::new(alloc, size)?;
    for word in text.split_whitespace() {
        insert(&mut set, word, from);
    }
    Ok(set)
}

/// The tags of a text: pairs of a token and 1 or 0.
pub(crate) fn tags_of(alloc: Global, text: &str) -> Result<Tags, OutOfMemory> {
    let mut tags = Tags::new(alloc);
    for at in 0..16 {
        if let Some(token) = number_at(text, 2 * at) {
            let met = long(text, 2 * at + 1) > 0;
            tags.push(Tag { token, met })?;
        }
    }
    Ok(tags)
}
