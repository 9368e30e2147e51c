//! Plans, as pictures and as classical planners write them.

use crate::answer::{Answer, made_of, no_command, telling};
use crate::ending::Ending;
use crate::naming::names_in;
use crate::reading::{AGENTS, accepted_team, text_of};
use mp_checker::CheckVerdict;
use mp_ipc::{agents_in, ipc_text};
use mp_list::OutOfMemory;
use mp_outside::Source;
use mp_pictures::steps_svg;
use mp_plans::{PlanText, read_plan, verdict_text};
use mp_steps::{PackRefusal, Packed, pack};
use mp_text::LineRefusal;
use mp_typing::CheckedFactor;
use std::alloc::Global;

/// The most steps of a plan.
const STEPS: usize = 4_194_304;

/// The answer about a text that is no plan, or want of memory.
fn no_plan(alloc: Global, name: &str, refusal: LineRefusal) -> Result<Answer, OutOfMemory> {
    match refusal {
        LineRefusal::OutOfMemory => Err(OutOfMemory),
        LineRefusal::Line(number) => {
            let mut text = String::new(alloc);
            write!(text, "{name} is no plan: line {number} is refused\n")?;
            Ok(telling(alloc, text, Ending::Faulty))
        }
    }
}

/// A plan as classical planners write it.
pub(crate) fn answer_ipc<S: Source>(
    alloc: Global,
    source: &mut S,
    words: &[String],
) -> Result<Answer, OutOfMemory> {
    let [name] = words else {
        return no_command(alloc);
    };
    let mut text = String::new(alloc);
    let Some(plan) = text_of(alloc, source, &mut text, name.as_str())? else {
        return Ok(telling(alloc, text, Ending::Faulty));
    };
    match ipc_text(alloc, plan.as_slice(), agents_in(plan.as_slice())) {
        Ok(made) => Ok(made_of(alloc, made, Ending::Fine)),
        Err(refusal) => no_plan(alloc, name.as_str(), refusal),
    }
}

/// What is found of a plan that has no picture.
fn faulty(alloc: Global, found: &CheckVerdict, stated: u64) -> Result<Answer, OutOfMemory> {
    let made = verdict_text(alloc, found, stated)?;
    Ok(made_of(alloc, made, Ending::Faulty))
}

/// The picture of a plan that solves, where it costs what its text states.
fn picture(
    alloc: Global,
    plan: &PlanText,
    packed: &Packed,
    agents: u16,
) -> Result<Answer, OutOfMemory> {
    if packed.cost != plan.cost {
        return faulty(alloc, &CheckVerdict::Valid(packed.cost), plan.cost);
    }
    let made = steps_svg(alloc, &plan.plan, packed, agents)?;
    Ok(made_of(alloc, made, Ending::Fine))
}

/// The picture of a plan of a team, or what is found of it.
fn picture_of_team(
    alloc: Global,
    team: &[CheckedFactor],
    plan: &PlanText,
    agents: u16,
) -> Result<Answer, OutOfMemory> {
    if team.is_empty() || team.len() > AGENTS || plan.plan.len() > STEPS {
        return no_command(alloc);
    }
    match pack(alloc, team, &plan.plan) {
        Ok(packed) => picture(alloc, plan, &packed, agents),
        Err(PackRefusal::Invalid(found)) => faulty(alloc, &found, plan.cost),
        Err(PackRefusal::OutOfMemory) => Err(OutOfMemory),
    }
}

/// The picture of a plan of a team, by the plan's text.
fn picture_of_text(
    alloc: Global,
    team: &[CheckedFactor],
    name: &str,
    text: &[u8],
) -> Result<Answer, OutOfMemory> {
    let agents = team.len();
    if agents == 0 || agents > AGENTS {
        return no_command(alloc);
    }
    let agents = agents as u16;
    match read_plan(alloc, text, agents) {
        Ok(plan) => picture_of_team(alloc, team, &plan, agents),
        Err(refusal) => no_plan(alloc, name, refusal),
    }
}

/// A plan as a picture, or what is wrong with its file or those of the team.
pub(crate) fn answer_picture<S: Source>(
    alloc: Global,
    source: &mut S,
    words: &[String],
) -> Result<Answer, OutOfMemory> {
    let [name, behind @ ..] = words else {
        return no_command(alloc);
    };
    let Some(names) = names_in(alloc, behind)? else {
        return no_command(alloc);
    };
    let mut text = String::new(alloc);
    let Some(plan) = text_of(alloc, source, &mut text, name.as_str())? else {
        return Ok(telling(alloc, text, Ending::Faulty));
    };
    match accepted_team(alloc, source, &mut text, names.as_slice())? {
        Some(team) => picture_of_text(alloc, team.as_slice(), name.as_str(), plan.as_slice()),
        None => Ok(telling(alloc, text, Ending::Faulty)),
    }
}
