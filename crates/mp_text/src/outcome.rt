//! The text of an outcome.

ghost use Rattle.std.specs.Prelude.{◌≡◌, ◌++◌, ◌∷◌, ◌+◌, ◌<◌, ◌^◌, [], length, decimal, OnOk, IfOk, codes};
ghost use Rattle.std.specs.List.{flat_map};
ghost use Rattle.mp_text.specs.Lines.{text_of_lines};
ghost use Rattle.mp_text.specs.Outcome.{step_line, share_lines, names_at as names_at_place, agent_lines, count_line, labelled, outcome_text as outcome_text_of};

use crate::counts::count;
use crate::write::{push_bytes, push_number};
use mp_joint::{Names, PlanStep};
use mp_list::{List, OutOfMemory};
use mp_messages::{Bytes, Log};
use mp_trail::{Share, Timed};
use mp_world::{Answer, Outcome};
use std::alloc::Global;

/// Appends a label and a number.
fn push_labelled(text: &mut Bytes, label: &[u8], number: u128) -> Result<(), OutOfMemory>
    ensures { OnOk result (text.new ≡ text.old ++ labelled label.now number) }
{
    push_bytes(text, label)?;
    push_number(text, number)
}

/// Appends a line of a label and a number.
fn push_labelled_line(text: &mut Bytes, label: &[u8], number: u64) -> Result<(), OutOfMemory>
    ensures { OnOk result (text.new ≡ text.old ++ (labelled label.now number ++ 10 ∷ [])) }
{
    push_labelled(text, label, u128::from(number))?;
    push_bytes(text, b"\n")
}

/// Appends the arguments of a step, each after a blank.
fn push_arguments(text: &mut Bytes, step: &PlanStep) -> Result<(), OutOfMemory>
    ensures { OnOk result (text.new ≡ text.old ++ flat_map (λ arg. 32 ∷ arg) step.now.args) }
{
    for arg in step.args.as_slice() {
        push_bytes(text, b" ")?;
        push_bytes(text, arg.as_slice())?;
    }
    Ok(())
}

/// Appends the line of a step.
fn push_step(text: &mut Bytes, time: u64, step: &PlanStep) -> Result<(), OutOfMemory>
    ensures { OnOk result (text.new ≡ text.old ++ (step_line time step.now ++ 10 ∷ [])) }
{
    push_number(text, u128::from(time))?;
    push_bytes(text, b": (")?;
    push_bytes(text, step.action.as_slice())?;
    push_arguments(text, step)?;
    push_bytes(text, b")\n")
}

/// Appends the line of an own action on a plan, where its number stands for something.
fn push_timed(text: &mut Bytes, own: &[PlanStep], timed: Timed) -> Result<(), OutOfMemory>
    ensures { OnOk result (text.new ≡ text.old
        ++ text_of_lines (share_lines own.now (timed ∷ []))) }
{
    match own.get(timed.action as usize) {
        Some(step) => push_step(text, timed.time, step),
        None => Ok(()),
    }
}

/// Appends the lines of an agent's share.
fn push_share(text: &mut Bytes, own: &[PlanStep], share: &[Timed]) -> Result<(), OutOfMemory>
    ensures { OnOk result (text.new ≡ text.old ++ text_of_lines (share_lines own.now share.now)) }
{
    for timed in share {
        push_timed(text, own, *timed)?;
    }
    Ok(())
}

/// What the own action numbers of the agent at a place stand for.
fn names_at(names: &[Names], place: usize) -> &[PlanStep]
    ensures { result.now ≡ names_at_place names.now place }
{
    match names.get(place) {
        Some(own) => own.as_slice(),
        None => &[],
    }
}

/// Appends the lines of each agent: its name and its share.
fn push_agents(text: &mut Bytes, shares: &[Share], names: &[Names]) -> Result<(), OutOfMemory>
    ensures { OnOk result (text.new ≡ text.old
        ++ text_of_lines (agent_lines names.now 0 shares.now)) }
{
    for (place, share) in shares.iter().enumerate() {
        push_labelled_line(text, b"agent ", place as u64 + 1)?;
        push_share(text, names_at(names, place), share.as_slice())?;
    }
    Ok(())
}

/// Appends the line that counts events, messages and their bytes.
fn push_counts(text: &mut Bytes, log: &Log) -> Result<(), OutOfMemory>
    ensures { OnOk result (text.new ≡ text.old ++ (count_line log.now ++ 10 ∷ [])) }
{
    let counts = count(log);
    push_labelled(text, b"events ", u128::from(counts.events))?;
    push_labelled(text, b" messages ", u128::from(counts.messages))?;
    push_labelled(text, b" bytes ", counts.bytes)?;
    push_bytes(text, b"\n")
}

/// The text of an outcome: the answer, each agent's share of the plan where there is one, by time
/// and by the names that its own action numbers stand for, and the counts of the log. It is empty
/// where the answer is `Nothing`; a number that stands for nothing has no line. Refuses only for
/// want of memory.
pub fn outcome_text(
    alloc: Global,
    outcome: &Outcome,
    names: &[Names],
    log: &Log,
) -> Result<Bytes, OutOfMemory>
    ensures { IfOk result (λ text. text ≡ outcome_text_of outcome.now names.now log.now) }
{
    let mut text = List::new(alloc);
    match outcome.answer {
        Answer::Nothing => return Ok(text),
        Answer::Solved { cost, length } => {
            push_labelled_line(&mut text, b"cost ", cost)?;
            push_labelled_line(&mut text, b"length ", length)?;
            push_agents(&mut text, outcome.shares.as_slice(), names)?;
        }
        Answer::Unsolvable => push_bytes(&mut text, b"unsolvable\n")?,
        Answer::Undecided => push_bytes(&mut text, b"undecided\n")?,
    }
    push_counts(&mut text, log)?;
    Ok(text)
}
