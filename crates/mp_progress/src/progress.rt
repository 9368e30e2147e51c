//! When a line is due that tells how far a team is, and what it says.

use crate::line::{push_cost, push_number};
use crate::standing::{Standing, standing_of};
use mp_list::{List, OutOfMemory};
use mp_messages::{Bytes, EntryView, Log};
use mp_outside::{Sink, put};
use mp_schedule::World;
use mp_task::Heuristic;
use std::alloc::Global;

/// The number of expansions at which the first line is due. Behind each line the next one is due at twice as many.
const FIRST: u64 = 1024;

/// From this number on, a line is due each time that so many more entries are expanded.
const EACH: u64 = 65536;

/// What was told so far.
#[derive(Clone, Copy)]
pub(crate) struct Progress {
    /// How many entries the team has expanded.
    expanded: u64,
    /// With how many the next line is due.
    due: u64,
    /// How many entries of the log were looked at.
    seen: usize,
    /// How many messages are sent in these.
    messages: u64,
}

/// With how many expansions the line behind this one is due.
fn due_after(due: u64) -> u64 {
    if due < EACH {
        return due.saturating_mul(2);
    }
    due.saturating_add(EACH)
}

/// How many messages are sent in the entries of a log behind so many.
fn count_messages(log: &Log, seen: usize) -> u64 {
    let mut messages: u64 = 0;
    for at in seen..log.len() {
        if let EntryView::Put { .. } = log.entry(at) {
            messages = messages.saturating_add(1);
        }
    }
    messages
}

/// Appends the line that tells how far a team is.
fn push_line(text: &mut Bytes, standing: Standing, messages: u64) -> Result<(), OutOfMemory> {
    text.extend_from_slice(b"expanded ")?;
    push_number(text, standing.expanded)?;
    text.extend_from_slice(b", open at most ")?;
    push_number(text, standing.open())?;
    text.extend_from_slice(b", least f ")?;
    push_cost(text, standing.least)?;
    text.extend_from_slice(b", best goal ")?;
    push_cost(text, standing.goal)?;
    text.extend_from_slice(b", messages ")?;
    push_number(text, messages)?;
    text.extend_from_slice(b"\n")
}

/// Writes the line that tells how far a team is. That a write fails changes nothing.
fn tell<E: Sink>(
    alloc: Global,
    standing: Standing,
    messages: u64,
    err: &mut E,
) -> Result<(), OutOfMemory> {
    let mut text = List::new(alloc);
    push_line(&mut text, standing, messages)?;
    let _ = put(err, text.as_slice());
    Ok(())
}

impl Progress {
    /// Nothing was told.
    pub(crate) fn new() -> Progress {
        Progress {
            expanded: 0,
            due: FIRST,
            seen: 0,
            messages: 0,
        }
    }

    /// Counts the messages of a log that were not counted yet.
    fn look_at(&mut self, log: &Log) {
        self.messages = self.messages.saturating_add(count_messages(log, self.seen));
        self.seen = log.len();
    }

    /// Notes that a team has expanded one more entry, and writes the line about it where one is due.
    pub(crate) fn note_expansion<H: Heuristic, E: Sink>(
        &mut self,
        alloc: Global,
        world: &World<H>,
        err: &mut E,
    ) -> Result<(), OutOfMemory> {
        self.expanded = self.expanded.saturating_add(1);
        if self.expanded < self.due {
            return Ok(());
        }
        self.due = due_after(self.due);
        self.look_at(world.log());
        tell(alloc, standing_of(world.machines()), self.messages, err)
    }
}
