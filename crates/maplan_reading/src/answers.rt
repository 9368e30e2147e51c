//! Answers to questions about the two files.

use crate::faults::{show_check, show_first, show_shape};
use crate::said::{show_domain, show_problem};
use crate::texts::{Texts, checked, tree_in};
use crate::words::{show, show_not_read, show_number, show_word};
use mp_factor::{domain, domain_fault, problem, problem_fault};
use mp_forms::File;
use mp_list::{List, OutOfMemory};
use mp_sexp::{Name, Tree};
use mp_typing::{CheckedFactor, TypeList};
use std::alloc::Global;

/// Adds the first fault of shape of a tree.
fn show_fault_of(
    alloc: Global,
    out: &mut Vec<u8>,
    file: File,
    tree: &Tree,
) -> Result<(), OutOfMemory> {
    match file {
        File::Domain => show_first(out, domain_fault(alloc, tree)?),
        File::Problem => show_first(out, problem_fault(alloc, tree)?),
    }
}

/// Adds the first fault of shape of a text.
pub(crate) fn answer_fault(
    alloc: Global,
    out: &mut Vec<u8>,
    file: File,
    text: &str,
) -> Result<(), OutOfMemory> {
    match tree_in(alloc, text) {
        Some(tree) => show_fault_of(alloc, out, file, &tree),
        None => show_not_read(out),
    }
}

/// Adds what the domain of a tree says, or the refusal.
fn show_domain_of(alloc: Global, out: &mut Vec<u8>, tree: &Tree) -> Result<(), OutOfMemory> {
    match domain(alloc, tree) {
        Ok(said) => show_domain(out, &said),
        Err(refusal) => show_shape(out, &refusal),
    }
}

/// Adds what the problem of a tree says, or the refusal.
fn show_problem_of(alloc: Global, out: &mut Vec<u8>, tree: &Tree) -> Result<(), OutOfMemory> {
    match problem(alloc, tree) {
        Ok(said) => show_problem(out, &said),
        Err(refusal) => show_shape(out, &refusal),
    }
}

/// Adds what a text says, or the refusal.
pub(crate) fn answer_says(
    alloc: Global,
    out: &mut Vec<u8>,
    file: File,
    text: &str,
) -> Result<(), OutOfMemory> {
    let Some(tree) = tree_in(alloc, text) else {
        return show_not_read(out);
    };
    match file {
        File::Domain => show_domain_of(alloc, out, &tree),
        File::Problem => show_problem_of(alloc, out, &tree),
    }
}

/// Adds the domain of the files, with which nothing is wrong.
fn show_accepted(out: &mut Vec<u8>, checked: &CheckedFactor) -> Result<(), OutOfMemory> {
    show(out, b"  accepted ")?;
    show_word(out, &checked.factor().domain.word)?;
    show(out, b"\n")
}

/// Adds what is wrong with the names of the files.
pub(crate) fn answer_check(
    alloc: Global,
    out: &mut Vec<u8>,
    texts: Texts<'_>,
) -> Result<(), OutOfMemory> {
    match checked(alloc, texts) {
        Some(Ok(factor)) => show_accepted(out, &factor),
        Some(Err(refusal)) => show_check(out, &refusal),
        None => show_not_read(out),
    }
}

/// The factor of the files, where nothing is wrong with them.
fn factor(alloc: Global, texts: Texts<'_>) -> Option<CheckedFactor> {
    checked(alloc, texts)?.ok()
}

/// Whether a type is another or lies under it.
fn is_under(alloc: Global, texts: Texts<'_>, sub: &str, sup: &str) -> Option<bool> {
    let factor = factor(alloc, texts)?;
    let sub = Name::folded(alloc, sub.as_bytes()).ok()?;
    let sup = Name::folded(alloc, sup.as_bytes()).ok()?;
    factor.is_a(&sub, &sup).ok()
}

/// Adds whether a type is another or lies under it.
pub(crate) fn answer_under(
    alloc: Global,
    out: &mut Vec<u8>,
    texts: Texts<'_>,
    sub: &str,
    sup: &str,
) -> Result<(), OutOfMemory> {
    match is_under(alloc, texts, sub, sup) {
        Some(true) => show(out, b"  yes\n"),
        Some(false) => show(out, b"  no\n"),
        None => show_not_read(out),
    }
}

/// The types of these names.
fn types(alloc: Global, names: &str) -> Result<TypeList, OutOfMemory> {
    let mut types = List::new(alloc);
    for name in names.split_whitespace() {
        types.push(Name::folded(alloc, name.as_bytes())?)?;
    }
    Ok(types)
}

/// Adds the numbers of the objects that are of one of these types.
fn show_members(
    out: &mut Vec<u8>,
    factor: &CheckedFactor,
    types: &TypeList,
) -> Result<(), OutOfMemory> {
    show(out, b"  objects")?;
    for number in factor.members(types)?.as_slice() {
        show(out, b" ")?;
        show_number(out, *number)?;
    }
    show(out, b"\n")
}

/// Adds the objects of the types of these names.
pub(crate) fn answer_members(
    alloc: Global,
    out: &mut Vec<u8>,
    texts: Texts<'_>,
    names: &str,
) -> Result<(), OutOfMemory> {
    let types = types(alloc, names)?;
    match factor(alloc, texts) {
        Some(factor) => show_members(out, &factor, &types),
        None => show_not_read(out),
    }
}
