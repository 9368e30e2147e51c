//! The factors that the files of a team hold.

ghost use Rattle.std.specs.Prelude.{◌≡◌, ◌<◌, Ok, IfOk, IfErr, IfSome, All, map, length};
ghost use Rattle.mp_outside.specs.Acts.{AreReadInTurn, Does};
ghost use Rattle.mp_files.specs.Asked.{team_asked};
ghost use Rattle.mp_files.specs.Cause.{IsOfReading, Rests, seen_source};
ghost use Rattle.mp_files.specs.Fetched.{IsShort, names_of, texts_of};
ghost use Rattle.mp_files.specs.Reading.{Refuses};
ghost use Rattle.mp_files.specs.Team.{HoldsTeam, IsReadTeam, ReadsMade, ReadsTexts};

use crate::fetched::{AgentFiles, AgentTexts, team_texts};
use crate::measured::measured;
use crate::refusal::Refusal;
use crate::said::{factors_of_team, said_by_team};
use mp_list::List;
use mp_outside::Source;
use mp_typing::CheckedFactor;
use std::alloc::Global;

/// The factors of the texts of a team.
fn factors_of_texts(alloc: Global, texts: Vec<AgentTexts>) -> Result<List<CheckedFactor>, Refusal>
    requires { All (λ t. IsShort (texts_of t)) texts.items }
    ensures factors { IfOk result (λ team. ReadsTexts (map texts_of texts.items) (Ok team)) }
    ensures cause { IfErr result (Refuses (ReadsTexts (map texts_of texts.items))) }
{
    let parts = said_by_team(alloc, texts)?;
    factors_of_team(alloc, parts)
}

/// The factors of the agents of a team, whose files have these names: each file is looked for and measured, an agent's
/// domain and then its problem, one agent after another; then each text is read and its shape looked at; then each
/// agent's factor is checked. The first of these that goes wrong is answered. Where the source's count of faults rose,
/// a file cannot be read. Each file is begun at most once, in the order of the names, and at most one byte more of it is taken than a
/// factor file may have; nothing else is done at the source. Refuses also for want of memory.
pub fn read_team<S: Source>(
    alloc: Global,
    source: &mut S,
    names: &[AgentFiles<'_>],
) -> Result<List<CheckedFactor>, Refusal>
    ensures team { IfOk result (λ team. IfSome (S.held source.old)
        (λ files. HoldsTeam files (map names_of names.now) team)) }
    ensures read { IfOk result (λ team. IsReadTeam (S.held source.old) (map names_of names.now) team) }
    ensures number { IfOk result (λ team. length team ≡ length names.now) }
    ensures cause { IfErr result (Rests
        (seen_source S.held S.faults S.fault_at source.old source.new) (map names_of names.now)) }
    ensures no_fault { IfOk result (λ _. S.faults source.new ≡ S.faults source.old) }
    ensures fault { IfErr result (λ r. S.faults source.old < S.faults source.new → IsOfReading r) }
    ensures acts { Does (AreReadInTurn (team_asked (map names_of names.now))) (S.acts source.old) (S.acts source.new) }
{
    let texts = team_texts(alloc, source, names)?;
    factors_of_texts(alloc, texts)
}

/// The factors of the agents of a team whose texts stand in memory. Each text is measured; then each is read and its shape
/// looked at; then each agent's factor is checked. The first of these that goes wrong is answered, as of a file. Refuses
/// also for want of memory.
pub fn read_texts(alloc: Global, texts: Vec<AgentTexts>) -> Result<List<CheckedFactor>, Refusal>
    ensures team { IfOk result (λ team. ReadsMade (map texts_of texts.items) (Ok team)) }
    ensures cause { IfErr result (Refuses (ReadsMade (map texts_of texts.items))) }
{
    let texts = measured(alloc, texts)?;
    factors_of_texts(alloc, texts)
}
