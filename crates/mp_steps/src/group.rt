//! The times of the actions of each level.

ghost use Rattle.std.specs.Prelude.{◌≡◌, ◌+◌, length, IfOk, OnOk};
ghost use Rattle.mp_steps.specs.Levels.{Test, levels};
ghost use Rattle.mp_steps.specs.Marks.{AreMet, with_time};
ghost use Rattle.mp_steps.specs.Steps.{steps as steps_of};

use crate::mark::Mark;
use mp_list::{List, OutOfMemory};
use std::alloc::Global;

/// Times of a plan, counted from 1.
pub type Times = List<u64>;

/// Steps, one after another.
pub type StepLists = List<Times>;

/// Adds a time to the step at a place; to a new one, where there is none there.
fn add_time(alloc: Global, steps: &mut Vec<Times>, place: u64, time: u64) -> Result<(), OutOfMemory>
    ensures { OnOk result (steps.new.items ≡ with_time steps.old.items place time) }
{
    match steps.get_mut(place as usize) {
        Some(step) => step.push(time)?,
        None => {
            let mut step = List::new(alloc);
            step.push(time)?;
            steps.push(step)?;
        }
    }
    Ok(())
}

/// Steps as a list.
fn listed(alloc: Global, steps: Vec<Times>) -> Result<StepLists, OutOfMemory>
    ensures { IfOk result (λ list. list ≡ steps.items) }
{
    let mut list = List::with_capacity(alloc, steps.len())?;
    for step in steps {
        list.push(step)?;
    }
    Ok(list)
}

/// The steps of actions, where these are the greatest levels of the earlier actions that interfere with them. Refuses
/// only for want of memory.
pub fn grouped(alloc: Global, mets: &[Mark]) -> Result<StepLists, OutOfMemory>
    ensures { IfOk result (λ steps. (interfere : Test) → AreMet interfere mets.now
        → steps ≡ steps_of (levels interfere (length mets.now)) (length mets.now)) }
{
    let mut steps = Vec::new(alloc);
    for (place, met) in mets.iter().enumerate() {
        add_time(alloc, &mut steps, met.level, place as u64 + 1)?;
    }
    listed(alloc, steps)
}
