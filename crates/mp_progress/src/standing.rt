//! What the agents of a team have found so far, taken together.

use mp_machine::Machine;
use mp_search::Search;
use mp_task::Heuristic;

/// What the agents of a team have found so far, taken together.
#[derive(Clone, Copy)]
pub struct Standing {
    /// How many entries they keep.
    pub entries: u64,
    /// How many of them were expanded.
    pub expanded: u64,
    /// The least f of an open entry, where there is one.
    pub least: Option<u64>,
    /// The least cost of a goal entry, where there is one.
    pub goal: Option<u64>,
}

impl Standing {
    /// At least as many entries as are open: those that were not expanded. Some of these may have given way to cheaper ones.
    pub fn open(self) -> u64 {
        self.entries.saturating_sub(self.expanded)
    }

    /// The same with one more agent.
    fn with(self, other: Standing) -> Standing {
        Standing {
            entries: self.entries.saturating_add(other.entries),
            expanded: self.expanded.saturating_add(other.expanded),
            least: lesser(self.least, other.least),
            goal: lesser(self.goal, other.goal),
        }
    }
}

/// The lesser of two costs, where there is one.
pub fn lesser(left: Option<u64>, right: Option<u64>) -> Option<u64> {
    match left {
        Some(one) => match right {
            Some(other) => Some(one.min(other)),
            None => left,
        },
        None => right,
    }
}

/// The cost of a goal entry.
fn cost_of(goal: Option<(u64, u64)>) -> Option<u64> {
    match goal {
        Some((cost, _)) => Some(cost),
        None => None,
    }
}

/// What the search of an agent has found.
fn standing_of_search<H: Heuristic>(search: &Search<H>) -> Standing {
    let store = search.store();
    Standing {
        entries: store.count(),
        expanded: search.expanded(),
        least: store.least_f(),
        goal: cost_of(store.least_goal()),
    }
}

/// What the agents of these machines have found.
pub fn standing_of<H: Heuristic>(machines: &[Machine<H>]) -> Standing {
    let mut standing = Standing {
        entries: 0,
        expanded: 0,
        least: None,
        goal: None,
    };
    for machine in machines {
        standing = standing.with(standing_of_search(machine.search()));
    }
    standing
}
