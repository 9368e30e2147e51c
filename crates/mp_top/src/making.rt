//! Teams that are made: their texts in memory, the names that these are told by, and their outcome in summary.

ghost use Rattle.std.specs.Prelude.{◌≡◌, ◌≤◌, [], length, map, IfOk, IfErr, Ok, if◌then◌else◌};
ghost use Rattle.std.specs.List.{range_with_len};
ghost use Rattle.mp_files.specs.Fetched.{names_of, texts_of};
ghost use Rattle.mp_files.specs.Reading.{Refuses};
ghost use Rattle.mp_files.specs.Team.{ReadsMade};
ghost use Rattle.mp_plans.specs.Made.{shown_text as shown_text_of};
ghost use Rattle.mp_split.specs.Team.{IsFirstRefusal};
ghost use Rattle.mp_top.specs.Asked.{agents_of, made_name};
ghost use Rattle.mp_top.specs.Decided.{IsTold, MakesFor, searching_by};
ghost use Rattle.mp_top.specs.Finding.{ComesOfSearch, WhereItMaySearch};
ghost use Rattle.mp_top.specs.Outcome.{told_made};
ghost use Rattle.mp_world.specs.Team.{most_expansions};

use crate::decision::{Decision, Search, status_of_answer};
use crate::finding::{Workers, found};
use mp_files::{AgentFiles, AgentTexts, Refusal as FilesRefusal, read_texts};
use mp_grounder::GroundRefusal;
use mp_list::{List, OutOfMemory};
use mp_maker::TextList;
use mp_messages::Bytes;
use mp_plans::{made_text, shown_text};
use mp_sexp::Name;
use mp_solve::Solution;
use mp_typing::CheckedFactor;
use std::alloc::Global;

/// The names of what is made for an agent.
fn made_names(agent: u16) -> AgentFiles<'static>
    requires from_1 { 1 ≤ agent }
    requires most { agent ≤ 8 }
    ensures { names_of result ≡ made_name agent }
{
    match agent {
        1 => AgentFiles {
            domain: "domain 1",
            problem: "problem 1",
        },
        2 => AgentFiles {
            domain: "domain 2",
            problem: "problem 2",
        },
        3 => AgentFiles {
            domain: "domain 3",
            problem: "problem 3",
        },
        4 => AgentFiles {
            domain: "domain 4",
            problem: "problem 4",
        },
        5 => AgentFiles {
            domain: "domain 5",
            problem: "problem 5",
        },
        6 => AgentFiles {
            domain: "domain 6",
            problem: "problem 6",
        },
        7 => AgentFiles {
            domain: "domain 7",
            problem: "problem 7",
        },
        _ => AgentFiles {
            domain: "domain 8",
            problem: "problem 8",
        },
    }
}

/// The names of what is made for a team of so many.
pub(crate) fn made_files(alloc: Global, size: u16) -> Result<Vec<AgentFiles<'static>>, OutOfMemory>
    requires { size ≤ 8 }
    ensures { IfOk result (λ files. map names_of files.items ≡ map made_name (range_with_len 1 size)) }
{
    let mut files = Vec::new(alloc);
    for agent in 1..size + 1 {
        files.push(made_names(agent))?;
    }
    Ok(files)
}

/// A text that stands in memory once more.
fn copied(alloc: Global, text: &Name) -> Result<Vec<u8>, OutOfMemory>
    ensures { IfOk result (λ bytes. bytes.items ≡ text.now) }
{
    let mut bytes = Vec::new(alloc);
    bytes.extend_from_slice(text.as_slice())?;
    Ok(bytes)
}

/// The texts of an agent.
fn agent_texts(alloc: Global, domain: &Name, problem: &Name) -> Result<AgentTexts, OutOfMemory>
    ensures { IfOk result (λ texts. texts_of texts ≡ record { domain = domain.now; problem = problem.now }) }
{
    let domain = copied(alloc, domain)?;
    let problem = copied(alloc, problem)?;
    Ok(AgentTexts { domain, problem })
}

/// The texts of the agents: an agent's domain and then its problem, one agent after another.
fn team_texts(alloc: Global, texts: &[Name]) -> Result<Vec<AgentTexts>, OutOfMemory>
    ensures { IfOk result (λ made. map texts_of made.items ≡ agents_of texts.now) }
{
    let mut made = Vec::new(alloc);
    let mut rest = texts;
    while let [domain, problem, later @ ..] = rest {
        made.push(agent_texts(alloc, domain, problem)?)?;
        rest = later;
    }
    Ok(made)
}

/// The factors of the agents with these texts.
pub(crate) fn made_team(alloc: Global, texts: &[Name]) -> Result<List<CheckedFactor>, FilesRefusal>
    ensures team { IfOk result (λ team. ReadsMade (agents_of texts.now) (Ok team)) }
    ensures cause { IfErr result (Refuses (ReadsMade (agents_of texts.now))) }
{
    let made = team_texts(alloc, texts)?;
    read_texts(alloc, made)
}

/// The files of a team, where they are asked for.
fn shown_before(alloc: Global, show: bool, texts: &[Name]) -> Result<Bytes, OutOfMemory>
    ensures { IfOk result (λ text. text ≡ (if show then shown_text_of texts.now else [])) }
{
    if show {
        return shown_text(alloc, texts);
    }
    Ok(List::new(alloc))
}

/// A solution as a decision that is told in summary.
fn summed(
    alloc: Global,
    solution: Solution,
    show: bool,
    texts: &[Name],
    size: u16,
) -> Result<Decision, OutOfMemory>
    ensures { IfOk result (IsTold solution (told_made show texts.now size solution.answer)) }
{
    let before = shown_before(alloc, show, texts)?;
    let Solution {
        views,
        log,
        answer,
        text: _,
    } = solution;
    Ok(Decision {
        views,
        log,
        answer,
        before,
        text: made_text(alloc, size, &answer)?,
        status: status_of_answer(answer),
    })
}

/// The decision for a team that is made and searches.
#[tactic(auto, using(mp_split::proofs::FirstAgents::no_memory))]
pub(crate) fn make_for<F: Fn(&[CheckedFactor], Search, Workers) -> Result<Solution, GroundRefusal>>(
    alloc: Global,
    team: &[CheckedFactor],
    find: &F,
    search: Search,
    workers: Workers,
    show: bool,
    texts: &[Name],
    size: u16,
) -> Result<Decision, GroundRefusal>
    requires from_1 { 1 ≤ search.limit }
    requires limit { search.limit ≤ most_expansions }
    requires some { 1 ≤ length team.now }
    requires at_most { length team.now ≤ 16 }
    requires callable { (t : _) (s : _) (w : _) → WhereItMaySearch t.now s (F.pre find.now t s w) }
    requires finds { (t : _) (s : _) (w : _) (r : _) → F.post find.now t s w r → ComesOfSearch t.now s w r }
    ensures outcome { IfOk result (MakesFor (searching_by search) workers.one show texts.now size team.now) }
    ensures refused { IfErr result (IsFirstRefusal team.now) }
{
    let solution = found(find, team, search, workers)?;
    Ok(summed(alloc, solution, show, texts, size)?)
}
