//! A log whose messages lie in one area of bytes.

ghost use Rattle.std.specs.Prelude.{◌≡◌, ◌+◌, ◌<◌, ◌^◌, ◌++◌, ◌∷◌, [], ℕ, length, drop, slice_get, IfOk, OnErr, OnOk, Some};
ghost use Rattle.std.specs.Option.{option_map};
ghost use Rattle.mp_messages.specs.declared.history.Entry.TheVariants.{Act, Put, Took};
ghost use Rattle.mp_messages.specs.LogFields.{shown};

use crate::history::{Entry, Kind};
use crate::lines::{EntryView, Line, add_bytes, add_bytes_once, add_line, view_of};
use mp_list::OutOfMemory;
use mp_sets::Agent;
use std::alloc::Global;
use std::marker::Model;

/// All entries in the order in which they came. Their messages lie in one area of bytes, so that a message that was put and
/// then taken may stand there once. Contracts see it as the list of its entries.
#[derive(Drop)]
pub struct Log {
    /// A line for each entry.
    lines: Vec<Line>,
    /// The bytes of the messages.
    area: Vec<u8>,
}

impl Model for Log {
    ghost use Rattle.std.specs.Prelude.{List};
    ghost use Rattle.mp_messages.specs.declared.history.Entry.{Entry};

    ghost Value = { List Entry };

    ghost use Rattle.mp_messages.specs.LogFields.{AreInside, entries_in};

    ghost view = { λ l. entries_in l.area.items l.lines.items };

    ghost invariant = { λ l. AreInside l.area.items l.lines.items };
}

impl Log {
    /// The empty log, which takes no memory yet.
    pub fn new(alloc: Global) -> Log
        ensures { result ≡ [] }
    {
        Log {
            lines: Vec::new(alloc),
            area: Vec::new(alloc),
        }
    }

    /// The empty log, with memory for this many entries without their messages. Refuses only for want of memory.
    pub fn with_capacity(alloc: Global, entries: usize) -> Result<Log, OutOfMemory>
        ensures { IfOk result (λ log. log ≡ []) }
    {
        Ok(Log {
            lines: Vec::with_capacity(alloc, entries)?,
            area: Vec::new(alloc),
        })
    }

    /// The number of entries. There are few enough to be in memory.
    pub fn len(&self) -> usize
        ensures len { result ≡ length self.now }
        ensures few { result < 2 ^ 59 }
    {
        self.lines.as_slice().len()
    }

    /// The entry at a place, counted from 0: none exactly where the log is not longer than that.
    pub fn get(&self, at: usize) -> Option<EntryView<'_>>
        ensures { option_map shown result ≡ slice_get self.now at }
    {
        if at < self.lines.len() {
            return Some(view_of(self.area.as_slice(), self.lines[at]));
        }
        None
    }

    /// The entry at a place that the log has, counted from 0.
    pub fn entry(&self, at: usize) -> EntryView<'_>
        requires { at < length self.now }
        ensures at { slice_get self.now at ≡ Some (shown result) }
        ensures rest { drop at self.now ≡ shown result ∷ drop (at + 1) self.now }
    {
        view_of(self.area.as_slice(), self.lines[at])
    }

    /// Adds at the end what an agent did by itself. For want of memory the log stays as it was.
    pub fn push_act(&mut self, agent: Agent, kind: Kind) -> Result<(), OutOfMemory>
        ensures ok { OnOk result (self.new ≡ self.old ++ Act agent kind ∷ []) }
        ensures err { OnErr result (self.new ≡ self.old) }
    {
        add_line(
            &mut self.lines,
            self.area.as_slice(),
            Line::Act(agent, kind),
        )
    }

    /// Adds at the end that a message was put. A state goes to its receivers one after another, so bytes that the last entry
    /// has too are not added again. For want of memory the log stays as it was.
    pub fn push_put(&mut self, from: Agent, to: Agent, bytes: &[u8]) -> Result<(), OutOfMemory>
        ensures ok { OnOk result (self.new ≡ self.old ++ Put from to bytes.now ∷ []) }
        ensures err { OnErr result (self.new ≡ self.old) }
    {
        let last = self.lines.len().saturating_sub(1);
        self.push_put_of(from, to, bytes, last)
    }

    /// Adds at the end that a message was put, as `push_put` does. Where the entry at a place has the same message, its bytes
    /// are not added again.
    fn push_put_of(
        &mut self,
        from: Agent,
        to: Agent,
        bytes: &[u8],
        at: usize,
    ) -> Result<(), OutOfMemory>
        ensures ok { OnOk result (self.new ≡ self.old ++ Put from to bytes.now ∷ []) }
        ensures err { OnErr result (self.new ≡ self.old) }
    {
        let place = add_bytes_once(self.lines.as_slice(), &mut self.area, at, bytes)?;
        add_line(
            &mut self.lines,
            self.area.as_slice(),
            Line::Put { from, to, place },
        )
    }

    /// Adds at the end that a message was taken. For want of memory the log stays as it was.
    pub fn push_took(&mut self, by: Agent, from: Agent, bytes: &[u8]) -> Result<(), OutOfMemory>
        ensures ok { OnOk result (self.new ≡ self.old ++ Took by from bytes.now ∷ []) }
        ensures err { OnErr result (self.new ≡ self.old) }
    {
        let place = add_bytes(self.lines.as_slice(), &mut self.area, bytes)?;
        add_line(
            &mut self.lines,
            self.area.as_slice(),
            Line::Took { by, from, place },
        )
    }

    /// Adds at the end that a message was taken, as `push_took` does. Where the entry at a place has the same message, as the
    /// one that put it has, its bytes are not added again.
    pub fn push_took_of(
        &mut self,
        by: Agent,
        from: Agent,
        bytes: &[u8],
        put: usize,
    ) -> Result<(), OutOfMemory>
        ensures ok { OnOk result (self.new ≡ self.old ++ Took by from bytes.now ∷ []) }
        ensures err { OnErr result (self.new ≡ self.old) }
    {
        let place = add_bytes_once(self.lines.as_slice(), &mut self.area, put, bytes)?;
        add_line(
            &mut self.lines,
            self.area.as_slice(),
            Line::Took { by, from, place },
        )
    }

    /// Adds an entry at the end, with a copy of its message. For want of memory the log stays as it was.
    pub fn push(&mut self, entry: &Entry) -> Result<(), OutOfMemory>
        ensures ok { OnOk result (self.new ≡ self.old ++ entry.now ∷ []) }
        ensures err { OnErr result (self.new ≡ self.old) }
    {
        match entry {
            Entry::Act(agent, kind) => self.push_act(*agent, *kind),
            Entry::Put { from, to, bytes } => self.push_put(*from, *to, bytes.as_slice()),
            Entry::Took { by, from, bytes } => self.push_took(*by, *from, bytes.as_slice()),
        }
    }
    /// Adds an entry at the end, as `push` does. Where the entry at a place has the same message, its bytes are not added again.
    pub fn push_of(&mut self, entry: &Entry, at: usize) -> Result<(), OutOfMemory>
        ensures ok { OnOk result (self.new ≡ self.old ++ entry.now ∷ []) }
        ensures err { OnErr result (self.new ≡ self.old) }
    {
        match entry {
            Entry::Act(agent, kind) => self.push_act(*agent, *kind),
            Entry::Put { from, to, bytes } => self.push_put_of(*from, *to, bytes.as_slice(), at),
            Entry::Took { by, from, bytes } => {
                self.push_took_of(*by, *from, bytes.as_slice(), at)
            }
        }
    }
}
