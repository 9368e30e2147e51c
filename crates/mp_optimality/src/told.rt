//! What is told of an audit.

ghost use Rattle.std.specs.Prelude.{◌≡◌, ◌++◌, OnOk, IfOk};
ghost use Rattle.mp_text.specs.Outcome.{labelled};
ghost use Rattle.mp_optimality.specs.Told.{audit_line, audit_text as audit_text_of, bound_line, step_line};

use itoa::Buffer;
use mp_audit::AuditVerdict;
use mp_list::{List, OutOfMemory};
use mp_messages::Bytes;
use mp_sets::Agent;
use std::alloc::Global;

/// Appends a label and a number in decimal.
fn push_labelled(text: &mut Bytes, label: &[u8], number: u64) -> Result<(), OutOfMemory>
    ensures { OnOk result (text.new ≡ text.old ++ labelled label.now number) }
{
    let mut buffer = Buffer::new();
    text.extend_from_slice(label)?;
    text.extend_from_slice(buffer.format(number).as_bytes())
}

/// Appends what a bound that holds shows of a plan of this cost.
fn push_bound(text: &mut Bytes, bound: u64, cost: u64) -> Result<(), OutOfMemory>
    ensures { OnOk result (text.new ≡ text.old ++ bound_line bound cost) }
{
    if bound == cost {
        push_labelled(text, b"optimal cost ", cost)
    } else {
        push_labelled(text, b"invalid bound is ", bound)
    }
}

/// Appends where an action leads on too cheaply.
fn push_step(text: &mut Bytes, entry: u64, action: u32, agent: Agent) -> Result<(), OutOfMemory>
    ensures { OnOk result (text.new ≡ text.old ++ step_line entry action agent) }
{
    push_labelled(text, b"fails at ", entry)?;
    push_labelled(text, b" action ", u64::from(action))?;
    push_labelled(text, b" agent ", u64::from(agent.number()))
}

/// Appends the line of an audit, without its line feed.
#[tactic(auto, unfolding(crate::specs::Told::audit_line))]
fn push_audit(
    text: &mut Bytes,
    verdict: &AuditVerdict,
    bound: u64,
    cost: u64,
) -> Result<(), OutOfMemory>
    ensures { OnOk result (text.new ≡ text.old ++ audit_line verdict.now bound cost) }
{
    match verdict {
        AuditVerdict::Holds => push_bound(text, bound, cost),
        AuditVerdict::Double(entry) => push_labelled(text, b"fails double ", *entry),
        AuditVerdict::Start(agent) => {
            push_labelled(text, b"fails at start agent ", u64::from(agent.number()))
        }
        AuditVerdict::Goal(entry) => push_labelled(text, b"fails goal ", *entry),
        AuditVerdict::Step {
            entry,
            action,
            agent,
        } => push_step(text, *entry, *action, *agent),
    }
}

/// The text of an audit of a certificate with this bound, for a plan that solves at this cost.
pub(crate) fn audit_text(
    alloc: Global,
    verdict: &AuditVerdict,
    bound: u64,
    cost: u64,
) -> Result<Bytes, OutOfMemory>
    ensures { IfOk result (λ text. text ≡ audit_text_of verdict.now bound cost) }
{
    let mut text = List::new(alloc);
    push_audit(&mut text, verdict, bound, cost)?;
    text.push(b'\n')?;
    Ok(text)
}
