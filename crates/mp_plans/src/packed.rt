//! What is told of the concurrent steps of a plan.

ghost use Rattle.std.specs.Prelude.{◌≡◌, ◌++◌, ◌∷◌, [], decimal, codes, IfOk, OnOk};
ghost use Rattle.std.specs.List.{flat_map};
ghost use Rattle.std.specs.Option.{option_copied};
ghost use Rattle.mp_steps.specs.Interference.{at_time};
ghost use Rattle.mp_text.specs.Lines.{text_of_lines};
ghost use Rattle.mp_text.specs.Outcome.{labelled};
ghost use Rattle.mp_plans.specs.Packed.{action_line, action_lines, chain_line, lines_of_steps, steps_text as steps_text_of};

use crate::verdict::push_named;
use crate::write::{push_labelled_line, push_number};
use mp_joint::{JointPlan, PlanStep};
use mp_list::{List, OutOfMemory};
use mp_messages::Bytes;
use mp_steps::{Packed, Times};
use std::alloc::Global;

/// The action of a time.
fn action_at(plan: &[PlanStep], time: u64) -> Option<&PlanStep>
    ensures { option_copied result ≡ at_time plan.now time }
{
    if time == 0 {
        return None;
    }
    plan.get(time as usize - 1)
}

/// Appends the line of an action.
fn push_action(text: &mut Bytes, step: &PlanStep) -> Result<(), OutOfMemory>
    ensures { OnOk result (text.new ≡ text.old ++ (action_line step.now ++ 10 ∷ [])) }
{
    push_number(text, u64::from(step.agent.number()))?;
    text.push(b' ')?;
    push_named(text, &step.action, step.args.as_slice())?;
    text.push(b'\n')
}

/// Appends the line of the action of a time.
fn push_at(text: &mut Bytes, plan: &[PlanStep], time: u64) -> Result<(), OutOfMemory>
    ensures { OnOk result (text.new ≡ text.old ++ text_of_lines (action_lines plan.now (time ∷ []))) }
{
    match action_at(plan, time) {
        Some(step) => push_action(text, step),
        None => Ok(()),
    }
}

/// Appends the lines of the actions of some times.
fn push_actions(text: &mut Bytes, plan: &[PlanStep], times: &[u64]) -> Result<(), OutOfMemory>
    ensures { OnOk result (text.new ≡ text.old ++ text_of_lines (action_lines plan.now times.now)) }
{
    for time in times {
        push_at(text, plan, *time)?;
    }
    Ok(())
}

/// Appends the lines of a step.
fn push_step(
    text: &mut Bytes,
    plan: &[PlanStep],
    number: u64,
    times: &Times,
) -> Result<(), OutOfMemory>
    ensures { OnOk result (text.new ≡ text.old
        ++ text_of_lines (labelled (codes "step ") number ∷ action_lines plan.now times.now)) }
{
    push_labelled_line(text, b"step ", number)?;
    push_actions(text, plan, times.as_slice())
}

/// Appends the lines of all steps.
fn push_steps(text: &mut Bytes, plan: &[PlanStep], steps: &[Times]) -> Result<(), OutOfMemory>
    ensures { OnOk result (text.new ≡ text.old ++ text_of_lines (lines_of_steps plan.now 1 steps.now)) }
{
    for (place, times) in steps.iter().enumerate() {
        push_step(text, plan, place as u64 + 1, times)?;
    }
    Ok(())
}

/// Appends times, each after a blank.
fn push_times(text: &mut Bytes, times: &[u64]) -> Result<(), OutOfMemory>
    ensures { OnOk result (text.new ≡ text.old ++ flat_map (λ t. codes " " ++ decimal t) times.now) }
{
    for time in times {
        text.push(b' ')?;
        push_number(text, *time)?;
    }
    Ok(())
}

/// Appends the line of a chain.
fn push_chain(text: &mut Bytes, chain: &Times) -> Result<(), OutOfMemory>
    ensures { OnOk result (text.new ≡ text.old ++ (chain_line chain.now ++ 10 ∷ [])) }
{
    text.extend_from_slice(b"chain")?;
    push_times(text, chain.as_slice())?;
    text.extend_from_slice(b"\n")
}

/// The text of the concurrent steps of a plan. Refuses only for want of memory.
pub fn steps_text(alloc: Global, plan: &JointPlan, packed: &Packed) -> Result<Bytes, OutOfMemory>
    ensures { IfOk result (λ text. text ≡ steps_text_of plan.now packed.now) }
{
    let mut text = List::new(alloc);
    push_labelled_line(&mut text, b"cost ", packed.cost)?;
    push_labelled_line(&mut text, b"steps ", packed.steps.len() as u64)?;
    push_steps(&mut text, plan.as_slice(), packed.steps.as_slice())?;
    push_chain(&mut text, &packed.chain)?;
    Ok(text)
}
