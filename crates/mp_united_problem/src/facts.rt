//! What is true at the start of the united problem.

use crate::types::push_type_facts;
use mp_forms::{AtomList, Value, ValueList};
use mp_list::OutOfMemory;
use mp_messages::Bytes;
use mp_united_names::{UnitedAgent, push_number};
use mp_united_parts::{has_metric, is_total_cost, push_amount, push_atom, push_has_value};
use std::alloc::Global;

/// Appends the lines of facts.
fn push_init(
    out: &mut Bytes,
    agent: &UnitedAgent<'_>,
    facts: &AtomList,
) -> Result<(), OutOfMemory> {
    for fact in facts.as_slice() {
        out.extend_from_slice(b"  ")?;
        push_atom(out, agent, fact)?;
        out.push(b'\n')?;
    }
    Ok(())
}

/// Appends the lines of a value: that there is one, and which.
fn push_value(out: &mut Bytes, agent: &UnitedAgent<'_>, value: &Value) -> Result<(), OutOfMemory> {
    out.extend_from_slice(b"  ")?;
    push_has_value(out, agent, &value.of)?;
    out.extend_from_slice(b"\n  (= ")?;
    push_amount(out, agent, &value.of)?;
    out.push(b' ')?;
    push_number(out, value.cost)?;
    out.extend_from_slice(b")\n")
}

/// Appends the lines of values.
fn push_values(
    out: &mut Bytes,
    agent: &UnitedAgent<'_>,
    values: &ValueList,
) -> Result<(), OutOfMemory> {
    for value in values.as_slice() {
        if !is_total_cost(&value.of.word.name) {
            push_value(out, agent, value)?;
        }
    }
    Ok(())
}

/// Appends the lines of what is true at the start for an agent.
fn push_of_agent(
    alloc: Global,
    out: &mut Bytes,
    agent: &UnitedAgent<'_>,
) -> Result<(), OutOfMemory> {
    let problem = agent.problem();
    push_init(out, agent, &problem.init)?;
    if has_metric(agent) {
        push_values(out, agent, &problem.values)?;
    }
    push_type_facts(alloc, out, agent)
}

/// Appends the lines of what is true at the start for a team.
pub(crate) fn push_facts(
    alloc: Global,
    out: &mut Bytes,
    team: &[UnitedAgent<'_>],
) -> Result<(), OutOfMemory> {
    for agent in team {
        push_of_agent(alloc, out, agent)?;
    }
    Ok(())
}
