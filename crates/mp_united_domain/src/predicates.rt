//! Predicates and functions as the united domain declares them.

use mp_forms::{Schema, Signature, SignatureList};
use mp_list::OutOfMemory;
use mp_messages::Bytes;
use mp_united_names::{UnitedAgent, push_number};
use mp_united_parts::{has_metric, is_total_cost};

/// Appends so many variables, each behind a blank, and the bracket that closes them.
fn push_variables(out: &mut Bytes, count: usize) -> Result<(), OutOfMemory> {
    for before in 0..count {
        out.extend_from_slice(b" ?x")?;
        push_number(out, (before as u64).saturating_add(1))?;
    }
    out.push(b')')
}

/// Appends the line of a predicate.
fn push_predicate(
    out: &mut Bytes,
    agent: &UnitedAgent<'_>,
    predicate: &Signature,
) -> Result<(), OutOfMemory> {
    out.extend_from_slice(b"  (")?;
    agent.push_predicate(out, &predicate.word.name, predicate.params.len())?;
    push_variables(out, predicate.params.len())?;
    out.push(b'\n')
}

/// Appends the line of a predicate for the type of each parameter of an action.
fn push_type_tests(
    out: &mut Bytes,
    agent: &UnitedAgent<'_>,
    schema: &Schema,
) -> Result<(), OutOfMemory> {
    for param in schema.params.as_slice() {
        out.extend_from_slice(b"  (")?;
        agent.push_type_test(out, param)?;
        out.extend_from_slice(b" ?x1)\n")?;
    }
    Ok(())
}

/// Appends the line of the predicate that is true where a function has a value.
fn push_value_test(
    out: &mut Bytes,
    agent: &UnitedAgent<'_>,
    function: &Signature,
) -> Result<(), OutOfMemory> {
    out.extend_from_slice(b"  (")?;
    agent.push_value_test(out, &function.word.name)?;
    push_variables(out, function.params.len())?;
    out.push(b'\n')
}

/// Appends the lines of the predicates that are true where functions have values.
fn push_value_tests(
    out: &mut Bytes,
    agent: &UnitedAgent<'_>,
    functions: &SignatureList,
) -> Result<(), OutOfMemory> {
    for function in functions.as_slice() {
        if !is_total_cost(&function.word.name) {
            push_value_test(out, agent, function)?;
        }
    }
    Ok(())
}

/// Appends the lines of the predicates of an agent.
fn push_of_agent(out: &mut Bytes, agent: &UnitedAgent<'_>) -> Result<(), OutOfMemory> {
    let domain = agent.domain();
    for predicate in domain.predicates.as_slice() {
        push_predicate(out, agent, predicate)?;
    }
    for schema in domain.schemas.as_slice() {
        push_type_tests(out, agent, schema)?;
    }
    if has_metric(agent) {
        push_value_tests(out, agent, &domain.functions)?;
    }
    Ok(())
}

/// Appends the lines of the predicates of a team.
pub(crate) fn push_predicates(
    out: &mut Bytes,
    team: &[UnitedAgent<'_>],
) -> Result<(), OutOfMemory> {
    for agent in team {
        push_of_agent(out, agent)?;
    }
    Ok(())
}

/// Appends the line of a function.
fn push_function(
    out: &mut Bytes,
    agent: &UnitedAgent<'_>,
    function: &Signature,
) -> Result<(), OutOfMemory> {
    out.extend_from_slice(b"  (")?;
    agent.push_own(out, &function.word.name)?;
    push_variables(out, function.params.len())?;
    out.extend_from_slice(b" - number\n")
}

/// Appends the lines of the functions of an agent.
fn push_functions_of(
    out: &mut Bytes,
    agent: &UnitedAgent<'_>,
    functions: &SignatureList,
) -> Result<(), OutOfMemory> {
    for function in functions.as_slice() {
        if !is_total_cost(&function.word.name) {
            push_function(out, agent, function)?;
        }
    }
    Ok(())
}

/// Appends the lines of the functions of those agents of a team that have a metric.
pub(crate) fn push_functions(out: &mut Bytes, team: &[UnitedAgent<'_>]) -> Result<(), OutOfMemory> {
    for agent in team {
        if has_metric(agent) {
            push_functions_of(out, agent, &agent.domain().functions)?;
        }
    }
    Ok(())
}
