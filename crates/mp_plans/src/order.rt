//! The steps of a plan by their times.

ghost use Rattle.std.specs.Prelude.{◌≡◌, IfOk};
ghost use Rattle.mp_plans.specs.Plan.{all_there, in_order as in_order_of};
ghost use Rattle.mp_plans.specs.Slots.{is_free as is_free_at, no_steps, placed, with_timed};

use crate::line::TimedStep;
use mp_joint::{JointPlan, PlanStep};
use mp_list::{List, OutOfMemory};
use std::alloc::Global;

/// Whether a place is there, and no step stands there yet.
fn is_free(slots: &[Option<PlanStep>], at: usize) -> bool
    ensures { result ≡ is_free_at slots.now at }
{
    match slots.get(at) {
        Some(slot) => slot.is_none(),
        None => false,
    }
}

/// Puts a step at the place of its time, where that is there and free.
fn put(slots: &mut Vec<Option<PlanStep>>, timed: TimedStep)
    ensures { slots.new.items ≡ with_timed slots.old.items timed }
{
    let TimedStep { time, step } = timed;
    if time >= 1 && is_free(slots.as_slice(), time as usize - 1) {
        slots[time as usize - 1] = Some(step);
    }
}

/// So many free places.
fn free_slots(alloc: Global, most: usize) -> Result<Vec<Option<PlanStep>>, OutOfMemory>
    ensures { IfOk result (λ slots. slots.items ≡ no_steps most) }
{
    let mut slots = Vec::with_capacity(alloc, most)?;
    for _ in 0..most {
        slots.push(None)?;
    }
    Ok(slots)
}

/// Steps at the places of their times.
fn placed_steps(
    alloc: Global,
    most: usize,
    steps: List<TimedStep>,
) -> Result<Vec<Option<PlanStep>>, OutOfMemory>
    ensures { IfOk result (λ slots. slots.items ≡ placed steps (no_steps most)) }
{
    let mut slots = free_slots(alloc, most)?;
    for timed in steps.into_items() {
        put(&mut slots, timed);
    }
    Ok(slots)
}

/// All steps, where each place has one.
fn all_steps(alloc: Global, slots: Vec<Option<PlanStep>>) -> Result<Option<JointPlan>, OutOfMemory>
    ensures { IfOk result (λ plan. plan ≡ all_there slots.items) }
{
    let mut plan = List::with_capacity(alloc, slots.len())?;
    for slot in slots {
        match slot {
            Some(step) => plan.push(step)?,
            None => return Ok(None),
        }
    }
    Ok(Some(plan))
}

/// The steps by time, where there are so many, and each time up to there has one.
pub(crate) fn in_order(
    alloc: Global,
    most: u64,
    steps: List<TimedStep>,
) -> Result<Option<JointPlan>, OutOfMemory>
    ensures { IfOk result (λ plan. plan ≡ in_order_of most steps) }
{
    if steps.len() as u64 != most {
        return Ok(None);
    }
    let slots = placed_steps(alloc, most as usize, steps)?;
    all_steps(alloc, slots)
}
