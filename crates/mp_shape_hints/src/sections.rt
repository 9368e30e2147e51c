//! Sections that stand in the other file, or for a second time.

use crate::wanted::section;
use mp_bracket_hints::push_place;
use mp_forms::File;
use mp_positions::{Position, head, is_behind, members_of, place_of, section_of};
use std::alloc::AllocError;

/// Whether a word begins a section of a domain and none of a problem.
fn is_of_domain(word: &str) -> bool {
    match word {
        ":types" | ":constants" | ":predicates" | ":functions" | ":action" => true,
        _ => false,
    }
}

/// Whether a word begins a section of a problem and none of a domain.
fn is_of_problem(word: &str) -> bool {
    match word {
        ":domain" | ":objects" | ":init" | ":goal" | ":metric" => true,
        _ => false,
    }
}

/// Tells of a section that stands in the other file; whether it does.
fn tell_foreign(out: &mut String, file: File, word: &str) -> Result<bool, AllocError> {
    match file {
        File::Domain if is_of_problem(word) => {
            write!(
                out,
                "`{word}` is a section of a problem, and this is a domain\n"
            )?;
            Ok(true)
        }
        File::Problem if is_of_domain(word) => {
            write!(
                out,
                "`{word}` is a section of a domain, and this is a problem\n"
            )?;
            Ok(true)
        }
        _ => Ok(false),
    }
}

/// Tells of a section that stands for a second time; whether it does.
fn tell_again(out: &mut String, position: &Position<'_>, word: &str) -> Result<bool, AllocError> {
    let place = place_of(position.tree);
    match section_of(position.around, word) {
        Some(first) if word != ":action" && is_behind(place, place_of(first)) => {
            write!(out, "a section `{word}` stands before, at ")?;
            push_place(out, place_of(first))?;
            out.push_str(
                "\nwanted: one section of each kind, but for actions; put what this one has into the first\n",
            )?;
            Ok(true)
        }
        _ => Ok(false),
    }
}

/// Tells of a word or list that stands as a section, where one is wanted that has a word; whether it is told.
pub(crate) fn tell_section(
    out: &mut String,
    file: File,
    position: &Position<'_>,
) -> Result<bool, AllocError> {
    if members_of(position.tree).is_empty() {
        return Ok(false);
    }
    let word = head(position.tree);
    if tell_foreign(out, file, word)? {
        let wanted = section(file);
        write!(out, "wanted: {wanted}\n")?;
        return Ok(true);
    }
    tell_again(out, position, word)
}
