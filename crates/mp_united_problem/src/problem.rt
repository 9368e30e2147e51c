//! The united problem of a team, but for its domain.

use crate::facts::push_facts;
use crate::objects::push_objects;
use mp_list::{List, OutOfMemory};
use mp_messages::Bytes;
use mp_typing::CheckedFactor;
use mp_united_names::{UnitedAgent, united_agents};
use mp_united_parts::{has_any_metric, push_constants, push_literals, push_section};
use std::alloc::Global;

/// Appends the objects that are no constants, where those are the lines of a text.
fn push_other_objects(
    alloc: Global,
    out: &mut Bytes,
    team: &[UnitedAgent<'_>],
    constants: &[u8],
) -> Result<(), OutOfMemory> {
    let mut lines = List::new(alloc);
    push_objects(&mut lines, team)?;
    push_section(alloc, out, b" (:objects\n", constants, lines.as_slice())
}

/// Appends the objects that are no constants.
fn push_all_objects(
    alloc: Global,
    out: &mut Bytes,
    team: &[UnitedAgent<'_>],
) -> Result<(), OutOfMemory> {
    let mut constants = List::new(alloc);
    push_constants(&mut constants, team)?;
    push_other_objects(alloc, out, team, constants.as_slice())
}

/// Appends what is true at the start.
fn push_start(
    alloc: Global,
    out: &mut Bytes,
    team: &[UnitedAgent<'_>],
    metric: bool,
) -> Result<(), OutOfMemory> {
    let mut lines = List::new(alloc);
    if metric {
        lines.extend_from_slice(b"  (= (total-cost) 0)\n")?;
    }
    push_facts(alloc, &mut lines, team)?;
    push_section(alloc, out, b" (:init\n", b"", lines.as_slice())
}

/// Appends the goals.
fn push_goals(out: &mut Bytes, team: &[UnitedAgent<'_>]) -> Result<(), OutOfMemory> {
    out.extend_from_slice(b" (:goal (and")?;
    for agent in team {
        push_literals(out, agent, b"\n  ", &agent.problem().goals)?;
    }
    out.extend_from_slice(b"))\n")
}

/// Appends the metric, where there is one, and the last bracket.
fn push_end(out: &mut Bytes, metric: bool) -> Result<(), OutOfMemory> {
    if metric {
        out.extend_from_slice(b" (:metric minimize (total-cost))\n")?;
    }
    out.extend_from_slice(b")\n")
}

/// Appends the problem of these agents.
fn push_problem(
    alloc: Global,
    out: &mut Bytes,
    team: &[UnitedAgent<'_>],
) -> Result<(), OutOfMemory> {
    let metric = has_any_metric(team);
    out.extend_from_slice(b"(define (problem united)\n (:domain united)\n")?;
    push_all_objects(alloc, out, team)?;
    push_start(alloc, out, team, metric)?;
    push_goals(out, team)?;
    push_end(out, metric)
}

/// Appends the united problem of a team, for the domain that `united_domain` writes. Public objects and facts stand once,
/// and the goals of all agents are to hold. Refuses only for want of memory.
pub fn united_problem(
    alloc: Global,
    out: &mut Bytes,
    team: &[CheckedFactor],
) -> Result<(), OutOfMemory> {
    let agents = united_agents(alloc, team)?;
    push_problem(alloc, out, agents.as_slice())
}
