//! The texts of the files of a team. All are fetched before one is looked at.

ghost use Rattle.std.specs.Prelude.{◌≡◌, ◌+◌, ◌<◌, ◌≤◌};
ghost use Rattle.std.specs.Prelude.{OnOk, IfOk, IfErr, IfSome, All, length, map, slice_get, Some, vec_len};
ghost use Rattle.mp_outside.specs.Acts.{AreReadInTurn, Does, IsReadOnce};
ghost use Rattle.mp_files.specs.Asked.{file_asked, team_asked, two_asked};
ghost use Rattle.mp_files.specs.Cause.{AreFittingBefore, IsFittingBefore, IsOfReading, Rests, name_in, seen_source};
ghost use Rattle.mp_files.specs.Fetched.{AreAllFetched, AreFetched, IsFetched, IsShort, IsTextOf, names_of, texts_of};
ghost use Rattle.mp_files.specs.File.{longest_file};

use crate::appending::push;
use crate::refusal::Refusal;
use crate::shapes::file_of;
use mp_forms::File;
use mp_outside::{FetchRefusal, Source, fetch};
use std::alloc::Global;

/// The greatest number of bytes of a factor file.
pub(crate) const LONGEST: usize = 4_194_304;

/// The names of an agent's two files.
#[derive(Clone, Copy)]
pub struct AgentFiles<'a> {
    pub domain: &'a str,
    pub problem: &'a str,
}

/// The texts of an agent's two files.
#[derive(Drop)]
pub struct AgentTexts {
    pub domain: Vec<u8>,
    pub problem: Vec<u8>,
}

/// The name of one of an agent's files.
fn name_of<'a>(names: &AgentFiles<'a>, file: File) -> &'a str
    ensures { result.now ≡ name_in (names_of names.now) file }
{
    match file {
        File::Domain => names.domain,
        File::Problem => names.problem,
    }
}

/// The text of a file of an agent, where the files before it fit. It is read at most once, and at most one byte more of it than
/// a factor file may have.
fn text_of<S: Source>(
    alloc: Global,
    source: &mut S,
    team: &[AgentFiles<'_>],
    agent: usize,
    names: &AgentFiles<'_>,
    file: File,
) -> Result<Vec<u8>, Refusal>
    requires there { slice_get team.now agent ≡ Some names.now }
    requires before { IfSome (S.held source.old) (λ files. AreFittingBefore files (map names_of team.now) agent) }
    requires own { IfSome (S.held source.old) (λ files. IsFittingBefore files (names_of names.now) file) }
    ensures text { IfOk result (λ text. IsTextOf (S.held source.old) (name_in (names_of names.now) file) text.items) }
    ensures short { IfOk result (λ text. vec_len text ≤ longest_file) }
    ensures cause { IfErr result (Rests
        (seen_source S.held S.faults S.fault_at source.old source.new) (map names_of team.now)) }
    ensures no_fault { IfOk result (λ _. S.faults source.new ≡ S.faults source.old) }
    ensures fault { IfErr result (λ r. S.faults source.old < S.faults source.new → IsOfReading r) }
    ensures held { S.held source.new ≡ S.held source.old }
    ensures acts { Does (IsReadOnce (file_asked (name_in (names_of names.now) file))) (S.acts source.old) (S.acts source.new) }
{
    match fetch(alloc, source, name_of(names, file), LONGEST) {
        Ok(text) if text.len() > LONGEST => Err(Refusal::TooLarge(file_of(agent, file))),
        Ok(text) => Ok(text),
        Err(FetchRefusal::Absent) => Err(Refusal::Read(file_of(agent, file))),
        Err(FetchRefusal::Failed) => Err(Refusal::Read(file_of(agent, file))),
        Err(FetchRefusal::OutOfMemory) => Err(Refusal::OutOfMemory),
    }
}

/// The texts of the files of an agent, where those of the agents before it fit.
fn texts_of_agent<S: Source>(
    alloc: Global,
    source: &mut S,
    team: &[AgentFiles<'_>],
    agent: usize,
    names: &AgentFiles<'_>,
) -> Result<AgentTexts, Refusal>
    requires there { slice_get team.now agent ≡ Some names.now }
    requires before { IfSome (S.held source.old) (λ files. AreFittingBefore files (map names_of team.now) agent) }
    ensures texts { IfOk result (λ texts. IsFetched (S.held source.old) agent (names_of names.now) (texts_of texts)) }
    ensures short { IfOk result (λ texts. IsShort (texts_of texts)) }
    ensures cause { IfErr result (Rests
        (seen_source S.held S.faults S.fault_at source.old source.new) (map names_of team.now)) }
    ensures no_fault { IfOk result (λ _. S.faults source.new ≡ S.faults source.old) }
    ensures fault { IfErr result (λ r. S.faults source.old < S.faults source.new → IsOfReading r) }
    ensures held { S.held source.new ≡ S.held source.old }
    ensures acts { Does (AreReadInTurn (two_asked (names_of names.now))) (S.acts source.old) (S.acts source.new) }
{
    let domain = text_of(alloc, source, team, agent, names, File::Domain)?;
    let problem = text_of(alloc, source, team, agent, names, File::Problem)?;
    Ok(AgentTexts { domain, problem })
}

/// Fetches the texts of one agent more.
fn fetch_next<S: Source>(
    alloc: Global,
    source: &mut S,
    team: &[AgentFiles<'_>],
    texts: &mut Vec<AgentTexts>,
    names: &AgentFiles<'_>,
) -> Result<(), Refusal>
    requires there { slice_get team.now (length texts.old.items) ≡ Some names.now }
    requires before { AreFetched (S.held source.old) (map names_of team.now) (map texts_of texts.old.items) }
    requires short { All (λ t. IsShort (texts_of t)) texts.old.items }
    ensures texts { OnOk result (AreFetched
        (S.held source.old) (map names_of team.now) (map texts_of texts.new.items)) }
    ensures count { OnOk result (length texts.new.items ≡ length texts.old.items + 1) }
    ensures short { OnOk result (All (λ t. IsShort (texts_of t)) texts.new.items) }
    ensures cause { IfErr result (Rests
        (seen_source S.held S.faults S.fault_at source.old source.new) (map names_of team.now)) }
    ensures no_fault { OnOk result (S.faults source.new ≡ S.faults source.old) }
    ensures fault { IfErr result (λ r. S.faults source.old < S.faults source.new → IsOfReading r) }
    ensures held { S.held source.new ≡ S.held source.old }
    ensures acts { Does (AreReadInTurn (two_asked (names_of names.now))) (S.acts source.old) (S.acts source.new) }
{
    let more = texts_of_agent(alloc, source, team, texts.len(), names)?;
    push(texts, more)
}

/// The texts of the files of all agents. Each file is read at most once, in the order of the names.
#[tactic(auto, using(crate::proofs::Acts::none_asked))]
pub(crate) fn team_texts<S: Source>(
    alloc: Global,
    source: &mut S,
    team: &[AgentFiles<'_>],
) -> Result<Vec<AgentTexts>, Refusal>
    ensures texts { IfOk result (λ texts. AreAllFetched
        (S.held source.old) (map names_of team.now) (map texts_of texts.items)) }
    ensures number { IfOk result (λ texts. length texts.items ≡ length team.now) }
    ensures short { IfOk result (λ texts. All (λ t. IsShort (texts_of t)) texts.items) }
    ensures cause { IfErr result (Rests
        (seen_source S.held S.faults S.fault_at source.old source.new) (map names_of team.now)) }
    ensures no_fault { IfOk result (λ _. S.faults source.new ≡ S.faults source.old) }
    ensures fault { IfErr result (λ r. S.faults source.old < S.faults source.new → IsOfReading r) }
    ensures held { S.held source.new ≡ S.held source.old }
    ensures acts { Does (AreReadInTurn (team_asked (map names_of team.now))) (S.acts source.old) (S.acts source.new) }
{
    let mut texts = Vec::new(alloc);
    for names in team {
        fetch_next(alloc, source, team, &mut texts, names)?;
    }
    Ok(texts)
}
