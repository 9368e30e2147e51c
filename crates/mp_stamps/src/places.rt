//! Where messages stand in a log that is being made.

use mp_list::OutOfMemory;
use mp_sets::Agent;
use std::alloc::Global;
use std::collections::VecDeque;

/// The greatest number of agents.
const MOST_AGENTS: usize = 16;

/// For each two agents the places in a log of the messages that the one put for the other and that are not taken yet, the
/// oldest first. The log compares what stands at a place, so no promise rests on these.
#[derive(Drop)]
pub(crate) struct Places {
    queues: Vec<VecDeque<usize>>,
}

/// The number of a pair of agents.
fn pair(from: Agent, to: Agent) -> usize {
    usize::from(from.number()) * MOST_AGENTS + usize::from(to.number())
}

impl Places {
    /// No messages.
    pub(crate) fn new(alloc: Global) -> Result<Places, OutOfMemory> {
        let pairs = (MOST_AGENTS + 1) * (MOST_AGENTS + 1);
        let mut queues = Vec::with_capacity(alloc, pairs)?;
        for _ in 0..pairs {
            queues.push(VecDeque::new(alloc))?;
        }
        Ok(Places { queues })
    }

    /// A message was put at a place of the log.
    pub(crate) fn put(&mut self, from: Agent, to: Agent, at: usize) -> Result<(), OutOfMemory> {
        let pair = pair(from, to);
        if pair < self.queues.len() {
            self.queues[pair].push_back(at)?;
        }
        Ok(())
    }

    /// The place of the oldest message of one agent for another, which is taken, if there is one.
    pub(crate) fn take(&mut self, from: Agent, to: Agent) -> Option<usize> {
        let pair = pair(from, to);
        if pair < self.queues.len() {
            return self.queues[pair].pop_front();
        }
        None
    }
}
