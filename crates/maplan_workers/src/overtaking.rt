//! Agent 1 is held up until another agent gets on.

use crate::gates::have_come;
use mp_outside::{Gate, Kind3};
use mp_sets::Agent;
use std::sync::atomic::{AtomicBool, AtomicU64, Ordering};

/// Holds agent 1's first event until another agent has passed one.
#[derive(Drop)]
pub(crate) struct Overtaking {
    turns: u64,
    has_come: AtomicBool,
    passed: AtomicU64,
    gave_up: AtomicBool,
}

impl Overtaking {
    /// A gate that nobody has come to, at which agent 1 waits for so many turns.
    pub(crate) fn new(turns: u64) -> Overtaking {
        Overtaking {
            turns,
            has_come: AtomicBool::new(false),
            passed: AtomicU64::new(0),
            gave_up: AtomicBool::new(false),
        }
    }

    /// Agent 1 waits. Where it gives up, that is noted.
    fn hold(&self) {
        if !have_come(&self.passed, 1, self.turns) {
            self.gave_up.store(true, Ordering::SeqCst);
        }
    }

    /// Whether agent 1 came, and another agent passed while it waited or before.
    pub(crate) fn was_passed(&self) -> bool {
        self.has_come.load(Ordering::SeqCst) && !self.gave_up.load(Ordering::SeqCst)
    }
}

impl Gate for Overtaking {
    fn pass(&self, agent: Agent, kind: Kind3) {
        if kind == Kind3::Sign {
            return;
        }
        if agent != Agent::first() {
            self.passed.fetch_add(1, Ordering::SeqCst);
        } else if !self.has_come.swap(true, Ordering::SeqCst) {
            self.hold();
        }
    }
}
