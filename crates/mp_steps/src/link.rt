//! The chain of a plan.

ghost use Rattle.std.specs.Prelude.{◌≡◌, ◌+◌, length, IfOk};
ghost use Rattle.mp_steps.specs.Levels.{Test, levels};
ghost use Rattle.mp_steps.specs.Marks.{AreMet, first_time as first_of, last_time as last_time_of, time_before as before, way_to};
ghost use Rattle.mp_steps.specs.Steps.{steps as steps_of, chain};

use crate::group::{StepLists, Times};
use crate::mark::Mark;
use mp_list::{List, OutOfMemory};
use std::alloc::Global;

/// The time before a time.
fn time_before(mets: &[Mark], time: u64) -> u64
    ensures { result ≡ before mets.now time }
{
    if time == 0 {
        return 0;
    }
    match mets.get(time as usize - 1) {
        Some(met) => met.time,
        None => 0,
    }
}

/// The first of some times, and 0 where there is none.
fn first_time(times: &Times) -> u64
    ensures { result ≡ first_of times.now }
{
    match times.get(0) {
        Some(time) => *time,
        None => 0,
    }
}

/// The first time of the last step, and 0 where there is none.
fn last_time(steps: &StepLists) -> u64
    ensures { result ≡ last_time_of steps.now }
{
    if steps.len() == 0 {
        return 0;
    }
    match steps.get(steps.len() - 1) {
        Some(step) => first_time(step),
        None => 0,
    }
}

/// The way back from a time, as long as this, in the order of the plan.
fn way_back(alloc: Global, mets: &[Mark], count: usize, last: u64) -> Result<Times, OutOfMemory>
    ensures { IfOk result (λ times. times ≡ way_to mets.now count last) }
{
    let mut back = Vec::with_capacity(alloc, count)?;
    let mut time = last;
    for _ in 0..count {
        back.push(time)?;
        time = time_before(mets, time);
    }
    let mut times = List::with_capacity(alloc, count)?;
    while let Some(time) = back.pop() {
        times.push(time)?;
    }
    Ok(times)
}

/// The chain through the steps of actions, where these are the greatest levels of the earlier actions that interfere with
/// them, and the first such actions. Refuses only for want of memory.
pub fn linked(alloc: Global, mets: &[Mark], steps: &StepLists) -> Result<Times, OutOfMemory>
    ensures { IfOk result (λ times. (interfere : Test) → AreMet interfere mets.now
        → steps.now ≡ steps_of (levels interfere (length mets.now)) (length mets.now)
        → times ≡ chain interfere (levels interfere (length mets.now)) (length mets.now)) }
{
    way_back(alloc, mets, steps.len(), last_time(steps))
}
