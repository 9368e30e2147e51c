//! The united domain of a team.

use crate::actions::push_actions;
use crate::predicates::{push_functions, push_predicates};
use mp_list::{List, OutOfMemory};
use mp_messages::Bytes;
use mp_typing::CheckedFactor;
use mp_united_names::{UnitedAgent, united_agents};
use mp_united_parts::{has_any_metric, push_constants, push_section};
use std::alloc::Global;

/// Appends the first lines.
fn push_head(out: &mut Bytes, metric: bool) -> Result<(), OutOfMemory> {
    out.extend_from_slice(
        b"(define (domain united)\n (:requirements :strips :negative-preconditions",
    )?;
    if metric {
        out.extend_from_slice(b" :action-costs")?;
    }
    out.extend_from_slice(b")\n")
}

/// Appends the constants, where there are some.
fn push_all_constants(
    alloc: Global,
    out: &mut Bytes,
    team: &[UnitedAgent<'_>],
) -> Result<(), OutOfMemory> {
    let mut lines = List::new(alloc);
    push_constants(&mut lines, team)?;
    if lines.len() == 0 {
        return Ok(());
    }
    push_section(alloc, out, b" (:constants\n", b"", lines.as_slice())
}

/// Appends the predicates.
fn push_all_predicates(
    alloc: Global,
    out: &mut Bytes,
    team: &[UnitedAgent<'_>],
) -> Result<(), OutOfMemory> {
    let mut lines = List::new(alloc);
    push_predicates(&mut lines, team)?;
    push_section(alloc, out, b" (:predicates\n", b"", lines.as_slice())
}

/// Appends the functions, where there are some.
fn push_all_functions(
    out: &mut Bytes,
    team: &[UnitedAgent<'_>],
    metric: bool,
) -> Result<(), OutOfMemory> {
    if !metric {
        return Ok(());
    }
    out.extend_from_slice(b" (:functions\n  (total-cost) - number\n")?;
    push_functions(out, team)?;
    out.extend_from_slice(b" )\n")
}

/// Appends the domain of these agents.
fn push_domain(
    alloc: Global,
    out: &mut Bytes,
    team: &[UnitedAgent<'_>],
) -> Result<(), OutOfMemory> {
    let metric = has_any_metric(team);
    push_head(out, metric)?;
    push_all_constants(alloc, out, team)?;
    push_all_predicates(alloc, out, team)?;
    push_all_functions(out, team, metric)?;
    push_actions(out, team)?;
    out.extend_from_slice(b")\n")
}

/// Appends the domain of the united problem of a team, without types and privacy: a classical planner, `maplan` with one
/// agent too, finds with it and `united_problem` a plan of the cost that the team has. Refuses only for want of memory.
///
/// What belongs to an agent has an ending with its number, the names of all its actions too. Each parameter asks for a
/// static predicate `is`, the type and the ending, which is true of those of the agent's objects that are of the type. An
/// action that costs the value of a function asks for a static predicate `given`, which is true where there is one; one
/// that costs the total cost itself has no instances, and is left out. Where only some factors have a metric, the actions
/// of the others cost 1.
pub fn united_domain(
    alloc: Global,
    out: &mut Bytes,
    team: &[CheckedFactor],
) -> Result<(), OutOfMemory> {
    let agents = united_agents(alloc, team)?;
    push_domain(alloc, out, agents.as_slice())
}
