//! The texts of a team that stand in memory, measured before one is looked at.

ghost use Rattle.std.specs.Prelude.{◌≡◌, Ok, IfOk, IfErr, All, map};
ghost use Rattle.mp_files.specs.Fetched.{IsShort, texts_of};
ghost use Rattle.mp_files.specs.Reading.{Each, Refuses};
ghost use Rattle.mp_files.specs.Team.{MeasuresTwo};

use crate::appending::push;
use crate::fetched::{AgentTexts, LONGEST};
use crate::refusal::Refusal;
use crate::shapes::file_of;
use mp_forms::File;
use std::alloc::Global;

/// The texts of an agent, unless one is too long.
fn measured_for_agent(agent: usize, texts: AgentTexts) -> Result<AgentTexts, Refusal>
    ensures texts { IfOk result (λ t. MeasuresTwo agent (texts_of texts) (Ok (texts_of t))) }
    ensures short { IfOk result (λ t. IsShort (texts_of t)) }
    ensures cause { IfErr result (Refuses (MeasuresTwo agent (texts_of texts))) }
{
    if texts.domain.len() > LONGEST {
        return Err(Refusal::TooLarge(file_of(agent, File::Domain)));
    }
    if texts.problem.len() > LONGEST {
        return Err(Refusal::TooLarge(file_of(agent, File::Problem)));
    }
    Ok(texts)
}

/// The texts of all agents, unless one is too long.
pub(crate) fn measured(alloc: Global, texts: Vec<AgentTexts>) -> Result<Vec<AgentTexts>, Refusal>
    ensures texts { IfOk result (λ ts. Each MeasuresTwo (map texts_of texts.items) (Ok (map texts_of ts.items))) }
    ensures short { IfOk result (λ ts. All (λ t. IsShort (texts_of t)) ts.items) }
    ensures cause { IfErr result (Refuses (Each MeasuresTwo (map texts_of texts.items))) }
{
    let mut measured = Vec::new(alloc);
    for more in texts {
        let fitting = measured_for_agent(measured.len(), more)?;
        push(&mut measured, fitting)?;
    }
    Ok(measured)
}
