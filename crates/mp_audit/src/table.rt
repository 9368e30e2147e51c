//! The entries of a certificate, each state of which stands once, to be found by their states.

ghost use Rattle.std.specs.Prelude.{All, IfOk};
ghost use Rattle.mp_audit.specs.Fits.{BoundFits};
ghost use Rattle.mp_audit.specs.Tables.{IsTable};

use crate::chains::{Chains, add, find, no_chains};
use crate::flat_bounds::FlatBounds;
use crate::state::{no_facts, set_to};
use mp_list::OutOfMemory;
use mp_task::Task;
use std::alloc::Global;

/// What is found of the states of entries.
#[derive(Drop)]
pub(crate) enum Table {
    /// Each stands once.
    Once(Chains),
    /// The number of the first entry whose state an earlier one has, counted from 1.
    Double(u64),
}

/// The entries by their states. Refuses only for want of memory.
pub(crate) fn table_of(
    alloc: Global,
    tasks: &[Task],
    bounds: &FlatBounds,
) -> Result<Table, OutOfMemory>
    requires { All (BoundFits tasks.now) bounds.now.entries }
    ensures { IfOk result (IsTable tasks.now bounds.now.entries) }
{
    let mut chains = no_chains(alloc, bounds.len())?;
    let none = no_facts(alloc, tasks)?;
    let mut state = no_facts(alloc, tasks)?;
    for place in 0..bounds.len() {
        let bound = bounds.entry(place);
        set_to(tasks, &bound, &none, &mut state);
        let agent = bound.agent();
        if let Some(_) = find(tasks, bounds, &chains, agent, &state) {
            return Ok(Table::Double(place as u64 + 1));
        }
        add(&mut chains, agent, &state)?;
    }
    Ok(Table::Once(chains))
}
