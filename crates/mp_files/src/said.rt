//! What the texts of a team's files say, and the factors of its agents.

ghost use Rattle.std.specs.Prelude.{◌≡◌, ◌≤◌, Ok, IfOk, IfErr, All, map, vec_len};
ghost use Rattle.mp_forms.specs.declared.files.File.TheVariants as file;
ghost use Rattle.mp_files.specs.Fetched.{IsShort, texts_of};
ghost use Rattle.mp_files.specs.File.{Checks, Parts, SaysProblem, file_of as file_of_agent, longest_file};
ghost use Rattle.mp_files.specs.Reading.{Each, Gives, Refuses, Then};
ghost use Rattle.mp_files.specs.Said.{parts_of};
ghost use Rattle.mp_files.specs.Team.{Says};

use crate::appending::push;
use crate::fetched::AgentTexts;
use crate::refusal::Refusal;
use crate::shapes::{checked, domain_of_text, file_of, problem_of_text};
use mp_forms::{Domain, File, Problem};
use mp_list::List;
use mp_typing::CheckedFactor;
use std::alloc::Global;

/// What the two files of an agent say.
#[derive(Drop)]
pub(crate) struct AgentParts {
    pub(crate) domain: Domain,
    pub(crate) problem: Problem,
}

/// What an agent's files say, by what its domain says.
fn with_problem(
    alloc: Global,
    agent: usize,
    domain: Domain,
    problem: Vec<u8>,
) -> Result<AgentParts, Refusal>
    requires { vec_len problem ≤ longest_file }
    ensures said { IfOk result (λ parts. Then (SaysProblem (file_of_agent agent File.Problem) problem.items)
        (λ p. Gives (record { domain = domain; problem = p })) (Ok (parts_of parts))) }
    ensures cause { IfErr result (Refuses {X = Parts} (Then
        (SaysProblem (file_of_agent agent File.Problem) problem.items)
        (λ p. Gives (record { domain = domain; problem = p })))) }
{
    let problem = problem_of_text(alloc, problem, file_of(agent, File::Problem))?;
    Ok(AgentParts { domain, problem })
}

/// What the texts of an agent's files say.
fn said_by_agent(alloc: Global, agent: usize, texts: AgentTexts) -> Result<AgentParts, Refusal>
    requires { IsShort (texts_of texts) }
    ensures said { IfOk result (λ parts. Says agent (texts_of texts) (Ok (parts_of parts))) }
    ensures cause { IfErr result (Refuses (Says agent (texts_of texts))) }
{
    let AgentTexts { domain, problem } = texts;
    let domain = domain_of_text(alloc, domain, file_of(agent, File::Domain))?;
    with_problem(alloc, agent, domain, problem)
}

/// What the texts of all agents' files say.
pub(crate) fn said_by_team(
    alloc: Global,
    texts: Vec<AgentTexts>,
) -> Result<Vec<AgentParts>, Refusal>
    requires { All (λ t. IsShort (texts_of t)) texts.items }
    ensures said { IfOk result (λ parts. Each Says (map texts_of texts.items) (Ok (map parts_of parts.items))) }
    ensures cause { IfErr result (Refuses (Each Says (map texts_of texts.items))) }
{
    let mut parts = Vec::new(alloc);
    for more in texts {
        let said = said_by_agent(alloc, parts.len(), more)?;
        push(&mut parts, said)?;
    }
    Ok(parts)
}

/// The factor of an agent, where nothing is wrong with it.
fn factor_of_agent(alloc: Global, agent: usize, parts: AgentParts) -> Result<CheckedFactor, Refusal>
    ensures factor { IfOk result (λ factor. Checks agent (parts_of parts) (Ok factor)) }
    ensures cause { IfErr result (Refuses (Checks agent (parts_of parts))) }
{
    let AgentParts { domain, problem } = parts;
    checked(alloc, agent, domain, problem)
}

/// The factors of all agents, where nothing is wrong with them.
pub(crate) fn factors_of_team(
    alloc: Global,
    parts: Vec<AgentParts>,
) -> Result<List<CheckedFactor>, Refusal>
    ensures factors { IfOk result (λ team. Each Checks (map parts_of parts.items) (Ok team)) }
    ensures cause { IfErr result (Refuses (Each Checks (map parts_of parts.items))) }
{
    let mut team = List::new(alloc);
    for more in parts {
        let factor = factor_of_agent(alloc, team.len(), more)?;
        team.push(factor)?;
    }
    Ok(team)
}
