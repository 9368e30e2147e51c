//! A plan as classical planners write it.

ghost use Rattle.std.specs.Prelude.{◌≡◌, ◌≤◌, ◌++◌, ◌∷◌, Ok, IfErr, IfOk, OnOk};
ghost use Rattle.std.specs.List.{flat_map};
ghost use Rattle.mp_plans.specs.Plan.{Refuses, plan_in};
ghost use Rattle.mp_plans.specs.Verdict.{named_text};
ghost use Rattle.mp_ipc.specs.Ipc.{cost_line, ipc_of, ipc_of_plan, step_line};

use itoa::Buffer;
use mp_joint::PlanStep;
use mp_list::{List, OutOfMemory};
use mp_messages::Bytes;
use mp_plans::{PlanText, read_plan};
use mp_sexp::Name;
use mp_text::LineRefusal;
use std::alloc::Global;

/// Appends arguments, each behind a blank.
fn push_arguments(text: &mut Bytes, args: &[Name]) -> Result<(), OutOfMemory>
    ensures { OnOk result (text.new ≡ text.old ++ flat_map (λ arg. 32 ∷ arg) args.now) }
{
    for arg in args {
        text.extend_from_slice(b" ")?;
        text.extend_from_slice(arg.as_slice())?;
    }
    Ok(())
}

/// Appends a name and its arguments between parentheses.
fn push_named(text: &mut Bytes, name: &Name, args: &[Name]) -> Result<(), OutOfMemory>
    ensures { OnOk result (text.new ≡ text.old ++ named_text name.now args.now) }
{
    text.extend_from_slice(b"(")?;
    text.extend_from_slice(name.as_slice())?;
    push_arguments(text, args)?;
    text.extend_from_slice(b")")
}

/// Appends the line of an action.
fn push_step(text: &mut Bytes, step: &PlanStep) -> Result<(), OutOfMemory>
    ensures { OnOk result (text.new ≡ text.old ++ step_line step.now) }
{
    push_named(text, &step.action, step.args.as_slice())?;
    text.extend_from_slice(b"\n")
}

/// Appends the lines of actions.
fn push_steps(text: &mut Bytes, plan: &[PlanStep]) -> Result<(), OutOfMemory>
    ensures { OnOk result (text.new ≡ text.old ++ flat_map step_line plan.now) }
{
    for step in plan {
        push_step(text, step)?;
    }
    Ok(())
}

/// Appends the line that tells a cost.
fn push_cost(text: &mut Bytes, cost: u64) -> Result<(), OutOfMemory>
    ensures { OnOk result (text.new ≡ text.old ++ cost_line cost) }
{
    let mut buffer = Buffer::new();
    text.extend_from_slice(b"; cost = ")?;
    text.extend_from_slice(buffer.format(cost).as_bytes())?;
    text.extend_from_slice(b"\n")
}

/// A plan and its cost as classical planners write them.
fn text_of_plan(alloc: Global, read: &PlanText) -> Result<Bytes, OutOfMemory>
    ensures { IfOk result (λ text. text ≡ ipc_of_plan read.now) }
{
    let mut text = List::new(alloc);
    push_steps(&mut text, read.plan.as_slice())?;
    push_cost(&mut text, read.cost)?;
    Ok(text)
}

/// The plan that a text has for a team of so many agents, as classical planners and validators write plans: its actions in
/// the order of their times, `(NAME ARG ..)` a line, and then `; cost = C`. A text that is no plan is refused with the
/// number of its first line that is not of its form.
pub fn ipc_text(alloc: Global, text: &[u8], agents: u16) -> Result<Bytes, LineRefusal>
    requires { agents ≤ 16 }
    ensures found { IfOk result (λ made. ipc_of (plan_in agents text.now) ≡ Ok made) }
    ensures refused { IfErr result (λ e. Refuses e (plan_in agents text.now)) }
{
    match read_plan(alloc, text, agents) {
        Ok(read) => Ok(text_of_plan(alloc, &read)?),
        Err(refusal) => Err(refusal),
    }
}
