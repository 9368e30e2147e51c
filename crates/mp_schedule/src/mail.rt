//! The messages under way between the agents of a team.

ghost use Rattle.std.specs.Prelude.{◌≡◌, ◌+◌, ◌-◌, ◌==◌, ◌∷◌, ◌++◌, [], drop, length, replicate};
ghost use Rattle.std.specs.Prelude.{slice_index_or, slice_set, IfOk, OnOk};
ghost use Rattle.mp_schedule.specs.UnderWay.{between, with_between};
ghost use Rattle.mp_machine.specs.Machine.{given};

use mp_list::OutOfMemory;
use mp_messages::Bytes;
use mp_sets::Agent;
use std::alloc::Global;
use std::collections::VecDeque;
use std::marker::Model;

/// A message under way. Contracts see it as its bytes.
#[derive(Drop)]
pub(crate) struct Posted {
    bytes: Bytes,
    /// The place of the entry of the log that says that it was put.
    put: usize,
}

impl Model for Posted {
    ghost use Rattle.std.specs.Prelude.{ℕ, List};

    ghost Value = { List ℕ };

    ghost view = { λ p. p.bytes };
}

impl Posted {
    /// A message, and the place of the entry that says that it was put.
    pub(crate) fn new(bytes: Bytes, put: usize) -> Posted
        ensures { result ≡ bytes }
    {
        Posted { bytes, put }
    }

    /// Its bytes.
    pub(crate) fn bytes(&self) -> &[u8]
        ensures { result.now ≡ self.now }
    {
        self.bytes.as_slice()
    }

    /// The place of the entry that says that it was put.
    pub(crate) fn put(&self) -> usize {
        self.put
    }
}

/// The messages from one agent to another, the oldest first.
#[derive(Drop)]
struct Queue {
    messages: VecDeque<Posted>,
}

impl Model for Queue {
    ghost use Rattle.std.specs.Prelude.{ℕ, List};

    ghost Value = { List (List ℕ) };

    ghost view = { λ q. q.messages.items };
}

impl Queue {
    fn new(alloc: Global) -> Queue
        ensures { result ≡ [] }
    {
        Queue {
            messages: VecDeque::new(alloc),
        }
    }

    fn is_empty(&self) -> bool
        ensures { result ≡ (length self.now == 0) }
    {
        self.messages.is_empty()
    }

    /// Adds a message behind the others.
    fn push(&mut self, message: Posted) -> Result<(), OutOfMemory>
        ensures { OnOk result (self.new ≡ self.old ++ message ∷ []) }
    {
        self.messages.push_back(message)?;
        Ok(())
    }

    /// Takes the oldest message, if there is one.
    fn take(&mut self) -> Option<Posted>
        ensures taken { given result ≡ slice_index_or self.old 0 [] }
        ensures left { self.new ≡ drop 1 self.old }
    {
        self.messages.pop_front()
    }
}

/// The messages from one agent to each of the team.
#[derive(Drop)]
struct Row {
    queues: Vec<Queue>,
}

impl Model for Row {
    ghost use Rattle.std.specs.Prelude.{ℕ, List};

    ghost Value = { List (List (List ℕ)) };

    ghost view = { λ r. r.queues.items };
}

impl Row {
    /// None to each of so many agents.
    fn new(alloc: Global, agents: usize) -> Result<Row, OutOfMemory>
        ensures { IfOk result (λ row. row ≡ replicate agents []) }
    {
        let mut queues = Vec::with_capacity(alloc, agents)?;
        for _ in 0..agents {
            queues.push(Queue::new(alloc))?;
        }
        Ok(Row { queues })
    }

    fn is_empty(&self, to: usize) -> bool
        ensures { result ≡ (length (slice_index_or self.now to []) == 0) }
    {
        match self.queues.get(to) {
            Some(queue) => queue.is_empty(),
            None => true,
        }
    }

    fn push(&mut self, to: usize, message: Posted) -> Result<(), OutOfMemory>
        ensures { OnOk result (self.new
            ≡ slice_set self.old to (slice_index_or self.old to [] ++ message ∷ [])) }
    {
        if to < self.queues.len() {
            let queue = &mut self.queues[to];
            queue.push(message)?;
        }
        Ok(())
    }

    fn take(&mut self, to: usize) -> Option<Posted>
        ensures taken { given result ≡ slice_index_or (slice_index_or self.old to []) 0 [] }
        ensures left { self.new ≡ slice_set self.old to (drop 1 (slice_index_or self.old to [])) }
    {
        if to < self.queues.len() {
            let queue = &mut self.queues[to];
            return queue.take();
        }
        None
    }
}

/// The messages under way between the agents of a team.
#[derive(Drop)]
pub(crate) struct Mail {
    rows: Vec<Row>,
}

impl Model for Mail {
    ghost use Rattle.mp_schedule.specs.UnderWay.{Mail as Messages};

    ghost Value = { Messages };

    ghost view = { λ m. m.rows.items };
}

impl Mail {
    /// None between so many agents.
    pub(crate) fn new(alloc: Global, agents: usize) -> Result<Mail, OutOfMemory>
        ensures { IfOk result (λ mail. mail ≡ replicate agents (replicate agents [])) }
    {
        let mut rows = Vec::with_capacity(alloc, agents)?;
        for _ in 0..agents {
            rows.push(Row::new(alloc, agents)?)?;
        }
        Ok(Mail { rows })
    }

    /// Whether no message is under way from one agent to another.
    pub(crate) fn is_empty(&self, from: Agent, to: Agent) -> bool
        ensures { result ≡ (length (between self.now from to) == 0) }
    {
        match self.rows.get(place(from)) {
            Some(row) => row.is_empty(place(to)),
            None => true,
        }
    }

    /// Adds a message behind those from one agent to another.
    pub(crate) fn push(
        &mut self,
        from: Agent,
        to: Agent,
        message: Posted,
    ) -> Result<(), OutOfMemory>
        ensures { OnOk result (self.new
            ≡ with_between self.old from to (between self.old from to ++ message ∷ [])) }
    {
        let at = place(from);
        if at < self.rows.len() {
            let row = &mut self.rows[at];
            row.push(place(to), message)?;
        }
        Ok(())
    }

    /// Takes the oldest message from one agent to another, if there is one.
    pub(crate) fn take(&mut self, from: Agent, to: Agent) -> Option<Posted>
        ensures taken { given result ≡ slice_index_or (between self.old from to) 0 [] }
        ensures left { self.new ≡ with_between self.old from to (drop 1 (between self.old from to)) }
    {
        let at = place(from);
        if at < self.rows.len() {
            let row = &mut self.rows[at];
            return row.take(place(to));
        }
        None
    }
}

/// The place of an agent in a list of all agents.
pub(crate) fn place(agent: Agent) -> usize
    ensures place { result ≡ agent - 1 }
    ensures number { result + 1 ≡ agent }
{
    usize::from(agent.number() - 1)
}
