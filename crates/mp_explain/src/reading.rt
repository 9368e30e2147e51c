//! The files of a call, read and explained.

use mp_file_hints::{FileText, explain_pair};
use mp_files::{AgentTexts, Refusal, read_texts};
use mp_list::{List, OutOfMemory};
use mp_outside::{FetchRefusal, Source, fetch};
use mp_typing::CheckedFactor;
use std::alloc::Global;

/// The greatest number of bytes of a factor file and of a plan.
const LONGEST: usize = 4_194_304;

/// The most agents of a team.
pub(crate) const AGENTS: usize = 16;

/// The text of a file: none where it cannot be read or is too long, and then that is told.
pub(crate) fn text_of<S: Source>(
    alloc: Global,
    source: &mut S,
    out: &mut String,
    name: &str,
) -> Result<Option<Vec<u8>>, OutOfMemory> {
    match fetch(alloc, source, name, LONGEST) {
        Ok(text) if text.len() > LONGEST => {
            write!(
                out,
                "{name} is too long: at most {LONGEST} bytes are accepted\n"
            )?;
            Ok(None)
        }
        Ok(text) => Ok(Some(text)),
        Err(FetchRefusal::OutOfMemory) => Err(OutOfMemory),
        Err(FetchRefusal::Absent) | Err(FetchRefusal::Failed) => {
            write!(out, "{name} cannot be read\n")?;
            Ok(None)
        }
    }
}

/// The texts of an agent's two files, where both can be read.
fn texts_of_agent<S: Source>(
    alloc: Global,
    source: &mut S,
    out: &mut String,
    domain: &str,
    problem: &str,
) -> Result<Option<AgentTexts>, OutOfMemory> {
    let first = text_of(alloc, source, out, domain)?;
    let second = text_of(alloc, source, out, problem)?;
    let Some(domain) = first else {
        return Ok(None);
    };
    let Some(problem) = second else {
        return Ok(None);
    };
    Ok(Some(AgentTexts { domain, problem }))
}

/// Adds the texts of an agent's two files, and tells what is wrong with them: whether `maplan` accepts both.
fn add_agent<S: Source>(
    alloc: Global,
    source: &mut S,
    out: &mut String,
    names: [&str; 2],
    texts: &mut Vec<AgentTexts>,
) -> Result<bool, OutOfMemory> {
    let [domain, problem] = names;
    let Some(read) = texts_of_agent(alloc, source, out, domain, problem)? else {
        return Ok(false);
    };
    let accepted = explain_pair(
        alloc,
        out,
        FileText {
            name: domain,
            text: read.domain.as_slice(),
        },
        FileText {
            name: problem,
            text: read.problem.as_slice(),
        },
    )?;
    texts.push(read)?;
    Ok(accepted)
}

/// The factors of a team of files that `maplan` accepts, an agent's domain and then its problem: none where it refuses one of
/// them, and then what is wrong with each is told.
pub(crate) fn accepted_team<S: Source>(
    alloc: Global,
    source: &mut S,
    out: &mut String,
    names: &[&str],
) -> Result<Option<List<CheckedFactor>>, OutOfMemory> {
    let mut texts = Vec::new(alloc);
    let mut accepted = true;
    for pair in names.chunks(2) {
        if let [domain, problem] = pair {
            let fine = add_agent(alloc, source, out, [*domain, *problem], &mut texts)?;
            accepted = accepted && fine;
        }
    }
    if !accepted {
        return Ok(None);
    }
    match read_texts(alloc, texts) {
        Ok(team) => Ok(Some(team)),
        Err(Refusal::OutOfMemory) => Err(OutOfMemory),
        // (each pair was accepted by the same calls)
        Err(_) => Ok(None),
    }
}
