//! What is told of a plan that was checked.

ghost use Rattle.std.specs.Prelude.{◌≡◌, ◌++◌, ◌∷◌, IfOk, OnOk};
ghost use Rattle.std.specs.List.{flat_map};
ghost use Rattle.mp_plans.specs.Verdict.{at_time, cost_line, fact_text, named_text, verdict_line, verdict_text as verdict_text_of};

use crate::write::push_labelled;
use mp_joint::NamedFact;
use mp_list::{List, OutOfMemory};
use mp_messages::Bytes;
use mp_plan_verdict::CheckVerdict;
use mp_sexp::Name;
use std::alloc::Global;

/// Appends arguments, each after a blank.
fn push_arguments(text: &mut Bytes, args: &[Name]) -> Result<(), OutOfMemory>
    ensures { OnOk result (text.new ≡ text.old ++ flat_map (λ arg. 32 ∷ arg) args.now) }
{
    for arg in args {
        text.push(b' ')?;
        text.extend_from_slice(arg.as_slice())?;
    }
    Ok(())
}

/// Appends a name and its arguments between parentheses.
pub(crate) fn push_named(text: &mut Bytes, name: &Name, args: &[Name]) -> Result<(), OutOfMemory>
    ensures { OnOk result (text.new ≡ text.old ++ named_text name.now args.now) }
{
    text.push(b'(')?;
    text.extend_from_slice(name.as_slice())?;
    push_arguments(text, args)?;
    text.push(b')')
}

/// Appends a fact.
fn push_fact(text: &mut Bytes, fact: &NamedFact) -> Result<(), OutOfMemory>
    ensures { OnOk result (text.new ≡ text.old ++ fact_text fact.now) }
{
    push_named(text, &fact.predicate, fact.args.as_slice())
}

/// Appends a label and a fact.
fn push_labelled_fact(text: &mut Bytes, label: &[u8], fact: &NamedFact) -> Result<(), OutOfMemory>
    ensures { OnOk result (text.new ≡ text.old ++ (label.now ++ fact_text fact.now)) }
{
    text.extend_from_slice(label)?;
    push_fact(text, fact)
}

/// Appends at which time something is wrong.
fn push_time(text: &mut Bytes, time: u64) -> Result<(), OutOfMemory>
    ensures { OnOk result (text.new ≡ text.old ++ at_time time) }
{
    push_labelled(text, b"invalid at ", time)
}

/// Appends what a step lacks or may not have.
fn push_step_fact(
    text: &mut Bytes,
    time: u64,
    label: &[u8],
    fact: &NamedFact,
) -> Result<(), OutOfMemory>
    ensures { OnOk result (text.new ≡ text.old
        ++ (at_time time ++ (label.now ++ fact_text fact.now))) }
{
    push_time(text, time)?;
    push_labelled_fact(text, label, fact)
}

/// Appends that a step is none of its agent's.
fn push_no_action(text: &mut Bytes, time: u64, label: &[u8]) -> Result<(), OutOfMemory>
    ensures { OnOk result (text.new ≡ text.old ++ (at_time time ++ label.now)) }
{
    push_time(text, time)?;
    text.extend_from_slice(label)
}

/// Appends the cost of a plan that solves.
fn push_cost(text: &mut Bytes, cost: u64, stated: u64) -> Result<(), OutOfMemory>
    ensures { OnOk result (text.new ≡ text.old ++ cost_line cost stated) }
{
    if cost == stated {
        push_labelled(text, b"valid cost ", cost)
    } else {
        push_labelled(text, b"invalid cost is ", cost)
    }
}

/// Appends the line of a verdict, without its line feed.
#[tactic(auto, unfolding(crate::specs::Verdict::verdict_line))]
fn push_verdict(text: &mut Bytes, verdict: &CheckVerdict, stated: u64) -> Result<(), OutOfMemory>
    ensures { OnOk result (text.new ≡ text.old ++ verdict_line verdict.now stated) }
{
    match verdict {
        CheckVerdict::Valid(cost) => push_cost(text, *cost, stated),
        CheckVerdict::NoAction(time) => push_no_action(text, *time, b" no action"),
        CheckVerdict::Missing(time, fact) => push_step_fact(text, *time, b" missing ", fact),
        CheckVerdict::Forbidden(time, fact) => push_step_fact(text, *time, b" forbidden ", fact),
        CheckVerdict::GoalMissing(fact) => {
            push_labelled_fact(text, b"invalid goal missing ", fact)
        }
        CheckVerdict::GoalForbidden(fact) => {
            push_labelled_fact(text, b"invalid goal forbidden ", fact)
        }
    }
}

/// The text of a verdict on a plan whose text states this cost: a plan that solves is valid where it costs what is
/// stated. Refuses only for want of memory.
pub fn verdict_text(
    alloc: Global,
    verdict: &CheckVerdict,
    stated: u64,
) -> Result<Bytes, OutOfMemory>
    ensures { IfOk result (λ text. text ≡ verdict_text_of verdict.now stated) }
{
    let mut text = List::new(alloc);
    push_verdict(&mut text, verdict, stated)?;
    text.push(b'\n')?;
    Ok(text)
}
