//! The actions of the united domain.

use mp_forms::{Schema, Typed};
use mp_list::OutOfMemory;
use mp_messages::Bytes;
use mp_united_names::UnitedAgent;
use mp_united_parts::{
    has_any_metric, lacks_cost, push_atom, push_cost, push_cost_condition, push_literals,
    push_negation,
};

/// Appends the variables of parameters, with blanks between them.
fn push_parameters(out: &mut Bytes, params: &[Typed]) -> Result<(), OutOfMemory> {
    for (before, param) in params.iter().enumerate() {
        if before > 0 {
            out.push(b' ')?;
        }
        out.extend_from_slice(param.word.name.as_slice())?;
    }
    Ok(())
}

/// Appends to a condition that the objects that stand for parameters are the agent's, and of their types.
fn push_types(
    out: &mut Bytes,
    agent: &UnitedAgent<'_>,
    params: &[Typed],
) -> Result<(), OutOfMemory> {
    for param in params {
        out.extend_from_slice(b" (")?;
        agent.push_type_test(out, param)?;
        out.push(b' ')?;
        out.extend_from_slice(param.word.name.as_slice())?;
        out.push(b')')?;
    }
    Ok(())
}

/// Appends what an action asks for.
fn push_condition(
    out: &mut Bytes,
    agent: &UnitedAgent<'_>,
    schema: &Schema,
) -> Result<(), OutOfMemory> {
    push_types(out, agent, schema.params.as_slice())?;
    push_literals(out, agent, b" ", &schema.pre)?;
    push_cost_condition(out, agent, schema)
}

/// Appends what an action changes.
fn push_changes(
    out: &mut Bytes,
    agent: &UnitedAgent<'_>,
    schema: &Schema,
) -> Result<(), OutOfMemory> {
    for atom in schema.add.as_slice() {
        out.push(b' ')?;
        push_atom(out, agent, atom)?;
    }
    for atom in schema.del.as_slice() {
        out.push(b' ')?;
        push_negation(out, agent, atom)?;
    }
    Ok(())
}

/// Appends an action, where the united problem has a metric or has none.
fn push_action(
    out: &mut Bytes,
    agent: &UnitedAgent<'_>,
    schema: &Schema,
    metric: bool,
) -> Result<(), OutOfMemory> {
    out.extend_from_slice(b" (:action ")?;
    agent.push_own(out, &schema.word.name)?;
    out.extend_from_slice(b"\n  :parameters (")?;
    push_parameters(out, schema.params.as_slice())?;
    out.extend_from_slice(b")\n  :precondition (and")?;
    push_condition(out, agent, schema)?;
    out.extend_from_slice(b")\n  :effect (and")?;
    push_changes(out, agent, schema)?;
    push_cost(out, agent, schema, metric)?;
    out.extend_from_slice(b"))\n")
}

/// Appends those actions of an agent that may have instances.
fn push_of_agent(
    out: &mut Bytes,
    agent: &UnitedAgent<'_>,
    metric: bool,
) -> Result<(), OutOfMemory> {
    for schema in agent.domain().schemas.as_slice() {
        if !lacks_cost(agent, schema) {
            push_action(out, agent, schema, metric)?;
        }
    }
    Ok(())
}

/// Appends the actions of a team.
pub(crate) fn push_actions(out: &mut Bytes, team: &[UnitedAgent<'_>]) -> Result<(), OutOfMemory> {
    let metric = has_any_metric(team);
    for agent in team {
        push_of_agent(out, agent, metric)?;
    }
    Ok(())
}
