//! Hints on the names of domains.

use mp_forms::Word;
use mp_hint_lines::{FileNames, begin_hint, files_of, push_place};
use mp_hints::text_of;
use mp_list::OutOfMemory;
use mp_typing::CheckedFactor;

/// Tells that a domain has another name than that of the first factor, where it has.
fn tell_domain(
    out: &mut String,
    file: &str,
    word: &Word,
    first_file: &str,
    first: &Word,
) -> Result<(), OutOfMemory> {
    if word.name == first.name {
        return Ok(());
    }
    let here = text_of(word.name.as_slice());
    let there = text_of(first.name.as_slice());
    begin_hint(out, file, word.at)?;
    write!(out, "the domain is called `{here}`, and `{there}` at ")?;
    push_place(out, first_file, first.at)?;
    out.push('\n')?;
    Ok(())
}

/// Tells which domains have another name than that of the first factor.
pub(crate) fn tell_domains(
    out: &mut String,
    team: &[CheckedFactor],
    files: &[FileNames<'_>],
) -> Result<(), OutOfMemory> {
    let Some(first) = team.first() else {
        return Ok(());
    };
    let known = &first.factor().domain.word;
    let known_file = files_of(files, 0).domain;
    for (agent, checked) in team.iter().enumerate() {
        let word = &checked.factor().domain.word;
        tell_domain(out, files_of(files, agent).domain, word, known_file, known)?;
    }
    Ok(())
}
