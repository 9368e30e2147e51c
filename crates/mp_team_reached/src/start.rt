//! The facts that are true at the start.

use crate::marks::{mark, part_of, private_mark};
use mp_grounder::Ground;
use mp_list::OutOfMemory;
use mp_sexp::Name;
use std::alloc::Global;
use std::collections::HashSet;

/// The texts of facts.
type Texts<'a> = HashSet<&'a [u8]>;

/// A set of texts.
fn set_of<'a>(alloc: Global, texts: &'a [Name]) -> Result<Texts<'a>, OutOfMemory> {
    let mut set = HashSet::new(alloc);
    for text in texts {
        set.insert(text.as_slice())?;
    }
    Ok(set)
}

/// The text of the fact whose complement has this text: none where it is that of a fact.
fn complemented(text: &[u8]) -> Option<&[u8]> {
    if text.len() < 7 || !text.starts_with(b"(not (") {
        return None;
    }
    Some(&text[5..text.len() - 1])
}

/// Whether the fact or complement of a text is true where these facts are.
fn is_true(init: &Texts<'_>, text: &[u8]) -> bool {
    match complemented(text) {
        Some(fact) => !init.contains(fact),
        None => init.contains(text),
    }
}

/// Marks the public facts and complements that are true at the start.
fn mark_publics(marks: &mut Vec<bool>, init: &Texts<'_>, texts: &[Name]) {
    for (number, text) in texts.iter().enumerate() {
        if is_true(init, text.as_slice()) {
            mark(marks, number);
        }
    }
}

/// Marks the private facts of all agents that are true at the start.
fn mark_privates(marks: &mut Vec<bool>, grounds: &[Ground], publics: usize) {
    for (place, made) in grounds.iter().enumerate() {
        let part = part_of(grounds, &[], publics, place);
        for fact in made.start.as_slice() {
            mark(marks, private_mark(part, *fact));
        }
    }
}

/// How many facts the agents have, public ones of the team and private ones.
fn count_facts(grounds: &[Ground], publics: usize) -> usize {
    let mut count = publics;
    for made in grounds {
        count = count.saturating_add(made.privates as usize);
    }
    count
}

/// Marks for all facts of a team, set for those that are true at the start, where these public facts are and these are the
/// texts of all public ones.
pub fn start_marks(
    alloc: Global,
    grounds: &[Ground],
    init: &[Name],
    texts: &[Name],
) -> Result<Vec<bool>, OutOfMemory> {
    let init = set_of(alloc, init)?;
    let mut marks = vec![in alloc; false; count_facts(grounds, texts.len())]?;
    mark_publics(&mut marks, &init, texts);
    mark_privates(&mut marks, grounds, texts.len());
    Ok(marks)
}
