//! A store of states with one public fact of four, or none.

ghost use Rattle.mp_store.specs.Laws.{IsEarlier};

use crate::calls::{Answers, Call, Out, run_lines};
use crate::lines::{long, part, short};
use crate::states::{set_of, tags_of};
use mp_list::OutOfMemory;
use mp_sets::Agent;
use mp_store::{Key, Origin, Store};
use std::alloc::Global;

/// The state in which the facts of a text are true, of four.
fn state(alloc: Global, facts: &str) -> Result<Key, OutOfMemory> {
    let publics = set_of(alloc, 4, facts, 0)?;
    Ok(Key {
        publics,
        mine: 0,
        tags: tags_of(alloc, "0 0")?,
    })
}

/// The first state is the initial one, and the others come from its entry.
fn origin(count: u64, action: u32) -> Origin
    ensures { IsEarlier count result }
{
    if count == 0 {
        return Origin::Root;
    }
    if action == 3 {
        return Origin::From {
            agent: Agent::first(),
            sent: 0,
        };
    }
    Origin::Own { action, parent: 0 }
}

/// Offers a state, and adds what becomes of it.
fn offer(alloc: Global, store: &mut Store, rest: &str, out: &mut Out) -> Result<(), OutOfMemory> {
    let key = state(alloc, part(rest, 0))?;
    let from = origin(store.count(), short(rest, 0));
    let (g, h) = (u64::from(short(rest, 1)), u64::from(short(rest, 2)));
    out.answer(&store.offer(key, g, h, from, long(rest, 3) > 0)?)
}

/// The same by a key of which a copy is kept.
fn copy(alloc: Global, store: &mut Store, rest: &str, out: &mut Out) -> Result<(), OutOfMemory> {
    let key = state(alloc, part(rest, 0))?;
    let from = origin(store.count(), short(rest, 0));
    let (g, h) = (u64::from(short(rest, 1)), u64::from(short(rest, 2)));
    out.answer(&store.offer_copy(&key, g, h, from, long(rest, 3) > 0)?)
}

/// Adds the best entry of a state.
fn best(alloc: Global, store: &Store, rest: &str, out: &mut Out) -> Result<(), OutOfMemory> {
    let key = state(alloc, rest)?;
    out.answer(&store.best(&key))
}

/// Sends the state of an entry, and adds its sent number.
fn send(store: &mut Store, entry: u64, out: &mut Out) -> Result<(), OutOfMemory> {
    if entry >= store.count() {
        return out.answer_not_read();
    }
    out.answer(&store.mark_sent(entry)?)
}

/// Adds the cost and the estimate of an entry, and the best one of its state.
fn show_entry(store: &Store, number: u64, out: &mut Out) -> Result<(), OutOfMemory> {
    if number >= store.count() {
        return out.answer_not_read();
    }
    let entry = store.entry(number);
    let key = entry.key.copy()?;
    out.answer(&(entry.g, entry.h, store.best(&key)))
}

impl Answers for Store {
    fn answer(&mut self, alloc: Global, call: Call<'_>, out: &mut Out) -> Result<(), OutOfMemory> {
        let rest = call.rest;
        match call.word {
            "offer" => offer(alloc, self, rest, out),
            "copy" => copy(alloc, self, rest, out),
            "pop" => out.answer(&(self.least_f(), self.pop_least())),
            "send" => send(self, long(rest, 0), out),
            "goal" => out.answer(&self.least_goal()),
            "best" => best(alloc, self, rest, out),
            "sent" => out.answer(&self.sent_entry(long(rest, 0))),
            "entry" => show_entry(self, long(rest, 0), out),
            _ => out.answer_not_read(),
        }
    }
}

/// Runs the calls of an empty store.
pub(crate) fn run_store(alloc: Global, lines: &str, out: &mut Out) -> Result<(), OutOfMemory> {
    run_lines(alloc, &mut Store::new(alloc), lines, out)
}
