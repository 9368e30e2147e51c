//! A tree that has not the shape of a factor's file.

use crate::costs::tell_cost;
use crate::lacking::lacking;
use crate::sections::tell_section;
use crate::unsupported::tell_unsupported;
use crate::wanted::wanted;
use mp_bracket_hints::{FileText, push_place, tell_place};
use mp_forms::{FaultKind, File};
use mp_positions::{
    Position, Role, head, is_list, members_of, name_of, place_of, position_at, word_of,
};
use mp_sexp::{Place, Tree};
use std::alloc::{AllocError, Global};

/// Tells that a word or list has no place where it stands.
fn tell_no_place(out: &mut String, tree: &Tree) -> Result<(), AllocError> {
    if is_list(tree) {
        out.push_str("this list has no place here\n")
    } else {
        out.push_str("this word has no place here\n")
    }
}

/// Whether a word stands as the value of a key of an action.
fn is_value(position: &Position<'_>) -> bool {
    match position.around_role {
        Role::Section(_) => !is_list(position.tree),
        _ => false,
    }
}

/// Writes a hint at a bracket that is missing before a section or key, where one stands; whether it does.
fn hint_at_bracket(out: &mut String, position: &Position<'_>) -> Result<bool, AllocError> {
    let word = name_of(position.tree);
    if !word.starts_with(':') || word == ":private" || is_value(position) {
        return Ok(false);
    }
    write!(out, "hint: is a closing bracket missing before `{word}`?\n")?;
    Ok(true)
}

/// Tells of what stands where a list should end.
fn tell_extra(out: &mut String, position: &Position<'_>) -> Result<(), AllocError> {
    tell_no_place(out, position.tree)?;
    out.push_str("wanted: the closing bracket of ")?;
    push_place(out, place_of(position.around))?;
    out.push('\n')?;
    if hint_at_bracket(out, position)? {
        return Ok(());
    }
    if head(position.around) == ":goal" {
        return out.push_str("hint: several conditions are joined by `(and ..)`\n");
    }
    Ok(())
}

/// Tells of what stands where an action's key should.
fn tell_no_key(out: &mut String, position: &Position<'_>) -> Result<(), AllocError> {
    let wanted = wanted(Role::Key);
    if is_list(position.tree) {
        tell_no_place(out, position.tree)?;
        write!(out, "wanted: {wanted}\n")?;
        if hint_at_bracket(out, position)? {
            return Ok(());
        }
        return out.push_str("hint: several conditions or effects are joined by `(and ..)`\n");
    }
    let word = word_of(position.tree);
    write!(
        out,
        "the key `{word}` stands before in this action\nwanted: each key at most once\n"
    )?;
    out.push_str("hint: several conditions or effects are joined by `(and ..)`\n")
}

/// Whether the title of a file's list says that the file is a domain.
fn is_domain(list: &Tree) -> bool {
    match members_of(list) {
        [_, title, ..] => head(title) == "domain",
        _ => false,
    }
}

/// Tells of a file's list that lacks its title, or its domain's name.
fn tell_whole(out: &mut String, file: File, position: &Position<'_>) -> Result<(), AllocError> {
    if members_of(position.tree).len() < 2 {
        let wanted = wanted(Role::Whole(file));
        return write!(out, "this list lacks something\nwanted: {wanted}\n");
    }
    out.push_str(
        "this list lacks a section\nwanted: `(:domain NAME)`, with the name of the agent's domain\n",
    )?;
    if is_domain(position.tree) {
        return out.push_str(
            "hint: this file is a domain, and each agent's problem is named behind its domain\n",
        );
    }
    Ok(())
}

/// A hint at a usual mistake at this place.
fn hint(position: &Position<'_>) -> &'static str {
    match position.role {
        Role::Kind(File::Domain) if word_of(position.tree) == "problem" => {
            "hint: this file is a problem, and each agent's domain is named before its problem\n"
        }
        Role::PrivateSignature(_) if word_of(position.tree).starts_with('?') => {
            "hint: a private block that names its agent is of files for all agents; write two files for each agent, and in its own `(:private (NAME ?x ..) ..)`\n"
        }
        Role::PrivateSignature(_) | Role::PrivateObject if head(position.tree) == ":private" => {
            "hint: a private block stands in no other one\n"
        }
        _ => "",
    }
}

/// Tells of a word or list that has no place where it stands, or of a list that lacks something.
fn tell_here(out: &mut String, position: &Position<'_>) -> Result<(), AllocError> {
    let lacking = lacking(position);
    if !lacking.is_empty() {
        return write!(out, "this list lacks something\nwanted in it: {lacking}\n");
    }
    tell_no_place(out, position.tree)?;
    let wanted = wanted(position.role);
    write!(out, "wanted: {wanted}\n")?;
    if hint_at_bracket(out, position)? {
        return Ok(());
    }
    out.push_str(hint(position))
}

/// Tells what the format wants where a word or list has no place, or lacks something.
fn tell_misplaced(out: &mut String, position: &Position<'_>) -> Result<(), AllocError> {
    match position.role {
        Role::Whole(file) => tell_whole(out, file, position),
        Role::Extra | Role::Metric => tell_extra(out, position),
        Role::Key => tell_no_key(out, position),
        Role::Section(file) => {
            if tell_section(out, file, position)? {
                return Ok(());
            }
            tell_here(out, position)
        }
        _ => tell_here(out, position),
    }
}

/// Tells of a fault of a file's shape, other than a word that is not supported, at this place.
pub fn tell_shape(
    out: &mut String,
    file: FileText<'_>,
    which: File,
    tree: &Tree,
    kind: FaultKind,
    place: Place,
) -> Result<(), AllocError> {
    let position = position_at(tree, which, place);
    match kind {
        FaultKind::Parameters => {
            tell_place(out, file, place, "F5 unsupported parameters", "")?;
            out.push_str(
                "this is the thirteenth parameter of the action\nwanted: at most 12 parameters, with the agent\n",
            )
        }
        FaultKind::Cost => {
            tell_place(out, file, place, "F9 cost", "")?;
            tell_cost(out, &position)
        }
        FaultKind::Shape | FaultKind::Unsupported => {
            tell_place(out, file, place, "F4 shape", "")?;
            tell_misplaced(out, &position)
        }
    }
}

/// Tells of a word that is not supported, at this place of a file.
pub fn tell_unsupported_word(
    alloc: Global,
    out: &mut String,
    file: FileText<'_>,
    which: File,
    tree: &Tree,
    word: &str,
    place: Place,
) -> Result<(), AllocError> {
    tell_place(out, file, place, "F5 unsupported ", word)?;
    let position = position_at(tree, which, place);
    tell_unsupported(alloc, out, &position, word)
}
