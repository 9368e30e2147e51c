//! What is worked out of the tasks and the certificate before the entries are audited one by one.

ghost use Rattle.std.specs.Prelude.{◌≡◌, ◌<◌, ◌≤◌, ◌^◌, length, option_map, slice_get, IfOk, Some};
ghost use Rattle.mp_audit.specs.Audited.{bound_of};
ghost use Rattle.mp_audit.specs.States.{known_by, HasSizes};
ghost use Rattle.mp_audit.specs.Tables.{AreFindersOf, IsFinderOf, IsReady};

use crate::chains::{Chains, find};
use crate::flat_bounds::FlatBounds;
use crate::state::JointSets;
use mp_applicable::{ActionIndex, FarIndex};
use mp_list::OutOfMemory;
use mp_sets::Agent;
use mp_task::Task;
use std::alloc::Global;

/// What is worked out once of a task.
#[derive(Drop)]
pub(crate) struct Finder {
    /// Finds the own actions that may be applied.
    pub(crate) actions: ActionIndex,
    /// Tells which other agents' public actions may be applicable.
    pub(crate) far: FarIndex,
}

/// What entries are audited by.
pub(crate) struct AuditData<'a> {
    /// The tasks of the team.
    pub(crate) tasks: &'a [Task],
    /// The entries.
    pub(crate) bounds: &'a FlatBounds,
    /// The entries by their states.
    pub(crate) chains: Chains,
    /// One for each task.
    pub(crate) finders: Vec<Finder>,
}

impl Drop for AuditData<'_> {
    fn drop(self) {
        let AuditData {
            tasks: _,
            bounds: _,
            chains: _,
            finders: _,
        } = self;
    }
}

/// What is worked out of a task.
fn finder_of(alloc: Global, task: &Task) -> Result<Finder, OutOfMemory>
    ensures { IfOk result (IsFinderOf task.now) }
{
    let actions = ActionIndex::new(alloc, task)?;
    let far = FarIndex::new(alloc, task)?;
    Ok(Finder { actions, far })
}

/// What is worked out of each task. Refuses only for want of memory.
pub(crate) fn finders(alloc: Global, tasks: &[Task]) -> Result<Vec<Finder>, OutOfMemory>
    ensures { IfOk result (λ made. AreFindersOf tasks.now made.items) }
{
    let mut made = Vec::with_capacity(alloc, tasks.len())?;
    for task in tasks {
        let one = finder_of(alloc, task)?;
        made.push(one)?;
    }
    Ok(made)
}

/// The bound of the entry in a place.
fn bound_of_entry(bounds: &FlatBounds, place: usize) -> u64
    requires { place < length bounds.now.entries }
    ensures { option_map (λ b. b.bound) (slice_get bounds.now.entries place) ≡ Some result }
{
    bounds.entry(place).bound()
}

/// The bound of a joint state in the search of an agent.
pub(crate) fn bound_in(known: &AuditData<'_>, agent: Agent, state: &JointSets) -> u64
    requires ready { IsReady known.now }
    requires sizes { HasSizes known.now.tasks.now state.now }
    ensures bound { result ≡ bound_of known.now.bounds.now.entries (known_by agent state.now) }
    ensures small { result ≤ 2 ^ 60 }
{
    match find(known.tasks, known.bounds, &known.chains, agent, state) {
        Some(place) => bound_of_entry(known.bounds, place),
        None => 0,
    }
}
