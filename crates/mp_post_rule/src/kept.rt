//! What a post keeps.

ghost use Rattle.std.specs.Prelude.{◌≡◌, ◌<◌, ◌≤◌, ◌-◌, ◌^◌, ◌++◌, ◌∷◌, [], drop, length, replicate, slice_index_or, slice_set, take, IfOk, IfNone, IfSome, OnErr, OnOk};
ghost use Rattle.mp_post_rule.specs.Queues.{mail};

use mp_list::OutOfMemory;
use mp_messages::{Bytes, Entries};
use mp_sets::Agent;
use std::alloc::Global;
use std::collections::VecDeque;
use std::marker::Model;
use std::snapshot::Snapshot;

/// A message that waits, with the stamp of its entry. Its bytes are there twice: for the receipt, and to be
/// handed over. Contracts see stamp and bytes.
#[derive(Drop)]
pub struct Waiting {
    stamp: u64,
    bytes: Bytes,
    again: Bytes,
}

impl Model for Waiting {
    ghost use Rattle.std.specs.Prelude.{◌≡◌, ◌<◌, ◌-◌, ◌^◌};
    ghost use Rattle.mp_stamps.specs.Mail.{Mail};

    ghost Value = { Mail };

    ghost view = { λ w. record { stamp = w.stamp; bytes = w.bytes } };

    ghost invariant = { λ w. (w.again ≡ w.bytes) × (w.stamp < 2 ^ 64 - 1) };
}

impl Waiting {
    /// A message of these bytes, both of them, with its stamp.
    pub fn new(stamp: u64, bytes: Bytes, again: Bytes) -> Waiting
        requires same { again ≡ bytes }
        requires stamp { stamp < 2 ^ 64 - 1 }
        ensures { result ≡ mail stamp bytes }
    {
        Waiting {
            stamp,
            bytes,
            again,
        }
    }

    /// The stamp, which is not the greatest that there is.
    pub fn stamp(&self) -> u64
        ensures stamp { result ≡ self.now.stamp }
        ensures below { result < 2 ^ 64 - 1 }
    {
        self.stamp
    }

    /// The bytes, twice.
    pub fn into_bytes(self) -> (Bytes, Bytes)
        ensures { (result.0 ≡ self.bytes) × (result.1 ≡ self.bytes) }
    {
        (self.bytes, self.again)
    }
}

/// Messages that wait for one agent, the oldest first. Contracts see the list of them.
#[derive(Drop)]
pub struct Queue {
    messages: VecDeque<Waiting>,
}

impl Model for Queue {
    ghost use Rattle.std.specs.Prelude.{List};
    ghost use Rattle.mp_stamps.specs.Mail.{Mail};

    ghost Value = { List Mail };

    ghost view = { λ q. q.messages.items };
}

impl Queue {
    /// None waits.
    pub fn new(alloc: Global) -> Queue
        ensures { result ≡ [] }
    {
        Queue {
            messages: VecDeque::new(alloc),
        }
    }

    /// How many wait.
    pub fn len(&self) -> usize
        ensures { result ≡ length self.now }
    {
        self.messages.len()
    }

    /// One more behind the others. For want of memory all is as it was.
    pub fn push(&mut self, message: Waiting) -> Result<(), OutOfMemory>
        ensures ok { OnOk result (self.new ≡ self.old ++ message ∷ []) }
        ensures err { OnErr result (self.new ≡ self.old) }
    {
        self.messages.push_back(message)?;
        Ok(())
    }

    /// Takes the oldest one out: none exactly where none waits.
    pub fn pop(&mut self) -> Option<Waiting>
        ensures some { IfSome result (λ m. self.old ≡ m ∷ self.new) }
        ensures none { IfNone result ((self.old ≡ []) × (self.new ≡ [])) }
    {
        self.messages.pop_front()
    }

    /// Lets all but so many of the oldest go.
    pub fn truncate(&mut self, count: usize)
        ensures { self.new ≡ take count self.old }
    {
        self.messages.truncate(count);
    }
}

/// A queue for each agent, that of agent 1 first. Contracts see the list of the queues.
#[derive(Drop)]
pub struct Queues {
    rows: Vec<Queue>,
}

impl Model for Queues {
    ghost use Rattle.std.specs.Prelude.{List};
    ghost use Rattle.mp_stamps.specs.Mail.{Mail};

    ghost Value = { List (List Mail) };

    ghost view = { λ q. q.rows.items };
}

impl Queues {
    /// An empty queue for each of so many agents. Refuses only for want of memory.
    pub fn new(alloc: Global, agents: usize) -> Result<Queues, OutOfMemory>
        ensures { IfOk result (λ queues. queues ≡ replicate agents []) }
    {
        let mut rows = Vec::with_capacity(alloc, agents)?;
        for _ in 0..agents {
            rows.push(Queue::new(alloc))?;
        }
        Ok(Queues { rows })
    }

    /// The number of queues.
    pub fn len(&self) -> usize
        ensures { result ≡ length self.now }
    {
        self.rows.len()
    }

    /// How many messages wait in a queue. Places count from 0.
    pub fn waiting(&self, at: usize) -> usize
        requires { at < length self.now }
        ensures { result ≡ length (slice_index_or self.now at []) }
    {
        self.rows[at].len()
    }

    /// One more behind the others in a queue. For want of memory all is as it was.
    pub fn push(&mut self, at: usize, message: Waiting) -> Result<(), OutOfMemory>
        requires { at < length self.old }
        ensures ok { OnOk result (self.new
            ≡ slice_set self.old at (slice_index_or self.old at [] ++ message ∷ [])) }
        ensures err { OnErr result (self.new ≡ self.old) }
    {
        let row = &mut self.rows[at];
        row.push(message)
    }

    /// Takes the oldest message out of a queue: none exactly where none waits there.
    pub fn pop(&mut self, at: usize) -> Option<Waiting>
        requires { at < length self.old }
        ensures some { IfSome result (λ m. slice_index_or self.old at []
            ≡ m ∷ drop 1 (slice_index_or self.old at [])) }
        ensures none { IfNone result (slice_index_or self.old at [] ≡ []) }
        ensures left { self.new ≡ slice_set self.old at (drop 1 (slice_index_or self.old at [])) }
    {
        let row = &mut self.rows[at];
        row.pop()
    }

    /// Lets all but so many of the oldest messages of a queue go.
    pub fn truncate(&mut self, at: usize, count: usize)
        requires { at < length self.old }
        ensures { self.new ≡ slice_set self.old at (take count (slice_index_or self.old at [])) }
    {
        let row = &mut self.rows[at];
        row.truncate(count);
    }
}

/// What a post keeps: what waits for each agent, and the party that was halted, if there is one.
#[derive(Drop)]
pub struct Kept {
    /// What waits for each agent.
    pub waiting: Queues,
    /// The party that was halted.
    pub halted: Option<Agent>,
}

/// What lies in a post's slot. Who signs, and what, says so to the steps of the table.
#[derive(Drop)]
pub struct Slot {
    /// What the post keeps: none while the holder of its turn has it.
    pub kept: Option<Kept>,
    /// The party that signs.
    pub by: Agent,
    /// The batch that it signs, where it signs one.
    pub signs: Option<Snapshot<Entries>>,
}
