//! Agents that wait for each other.

use crate::gates::have_come;
use mp_outside::{Gate, Kind3};
use mp_sets::Agent;
use std::sync::atomic::{AtomicBool, AtomicU64, Ordering};

/// Holds the first signing of each agent, or else its first event, until so many agents have come to theirs.
#[derive(Drop)]
pub(crate) struct Meeting {
    turns: u64,
    agents: u64,
    is_of_signings: bool,
    first: AtomicBool,
    second: AtomicBool,
    third: AtomicBool,
    come: AtomicU64,
    gave_up: AtomicBool,
}

impl Meeting {
    /// A meeting of so many agents, at most three, that nobody has come to.
    pub(crate) fn new(agents: u64, is_of_signings: bool, turns: u64) -> Meeting {
        Meeting {
            turns,
            agents,
            is_of_signings,
            first: AtomicBool::new(false),
            second: AtomicBool::new(false),
            third: AtomicBool::new(false),
            come: AtomicU64::new(0),
            gave_up: AtomicBool::new(false),
        }
    }

    /// What tells whether an agent has come.
    fn mark(&self, agent: Agent) -> &AtomicBool {
        match agent.number() {
            1 => &self.first,
            2 => &self.second,
            _ => &self.third,
        }
    }

    /// An agent has come, and waits for the others. Where it gives up, that is noted.
    fn hold(&self) {
        self.come.fetch_add(1, Ordering::SeqCst);
        if !have_come(&self.come, self.agents, self.turns) {
            self.gave_up.store(true, Ordering::SeqCst);
        }
    }

    /// Whether all agents came, and none gave up.
    pub(crate) fn was_passed(&self) -> bool {
        self.come.load(Ordering::SeqCst) == self.agents && !self.gave_up.load(Ordering::SeqCst)
    }
}

impl Gate for Meeting {
    fn pass(&self, agent: Agent, kind: Kind3) {
        let is_signing = kind == Kind3::Sign;
        if is_signing == self.is_of_signings && !self.mark(agent).swap(true, Ordering::SeqCst) {
            self.hold();
        }
    }
}
