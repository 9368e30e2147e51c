//! What actions cost.

use crate::atoms::{push_amount, push_has_value};
use mp_forms::{Increase, Schema};
use mp_list::OutOfMemory;
use mp_messages::Bytes;
use mp_sexp::Name;
use mp_united_names::{UnitedAgent, push_number};

/// Whether the total cost is to be least in an agent's factor; otherwise each of its actions costs 1.
pub fn has_metric(agent: &UnitedAgent<'_>) -> bool {
    agent.problem().metric
}

/// Whether one factor of a team has a metric.
pub fn has_any_metric(team: &[UnitedAgent<'_>]) -> bool {
    for agent in team {
        if has_metric(agent) {
            return true;
        }
    }
    false
}

/// Whether a function is the total cost, which has no value that an action could cost.
pub fn is_total_cost(name: &Name) -> bool {
    name.is(b"total-cost")
}

/// Whether an increase is by the total cost itself.
fn is_by_total_cost(increase: &Increase) -> bool {
    match increase {
        Increase::Number(_) => false,
        Increase::Function(of) => is_total_cost(&of.word.name),
    }
}

/// Whether an action has no instances, since its cost never has a value.
pub fn lacks_cost(agent: &UnitedAgent<'_>, schema: &Schema) -> bool {
    has_metric(agent)
        && schema
            .increases
            .as_slice()
            .iter()
            .any(|x| is_by_total_cost(x))
}

/// Appends to a condition that the functions by which an action increases the cost have values.
pub fn push_cost_condition(
    out: &mut Bytes,
    agent: &UnitedAgent<'_>,
    schema: &Schema,
) -> Result<(), OutOfMemory> {
    if !has_metric(agent) {
        return Ok(());
    }
    for increase in schema.increases.as_slice() {
        if let Increase::Function(of) = increase {
            out.push(b' ')?;
            push_has_value(out, agent, of)?;
        }
    }
    Ok(())
}

/// Appends an increase.
fn push_increase(
    out: &mut Bytes,
    agent: &UnitedAgent<'_>,
    increase: &Increase,
) -> Result<(), OutOfMemory> {
    out.extend_from_slice(b" (increase (total-cost) ")?;
    match increase {
        Increase::Number(cost) => push_number(out, *cost)?,
        Increase::Function(of) => push_amount(out, agent, of)?,
    }
    out.push(b')')
}

/// Appends to an effect what an action costs, where the united problem has a metric or has none.
pub fn push_cost(
    out: &mut Bytes,
    agent: &UnitedAgent<'_>,
    schema: &Schema,
    metric: bool,
) -> Result<(), OutOfMemory> {
    if !metric {
        return Ok(());
    }
    if !has_metric(agent) {
        return out.extend_from_slice(b" (increase (total-cost) 1)");
    }
    for increase in schema.increases.as_slice() {
        push_increase(out, agent, increase)?;
    }
    Ok(())
}
