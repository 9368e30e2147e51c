//! Names that are not declared.

use crate::known::{Sort, usable};
use crate::pair::Pair;
use mp_forms::File;
use mp_hints::nearest;
use mp_positions::{Position, Role, add_names};
use mp_sexp::Tree;
use std::alloc::{AllocError, Global};

/// As what an unknown word is used.
fn sort_of(role: Role, word: &str) -> Sort {
    match role {
        Role::Predicate => Sort::Predicate,
        Role::Function => Sort::Function,
        _ => {
            if word.starts_with('?') {
                Sort::Parameter
            } else {
                Sort::Object
            }
        }
    }
}

/// What an unknown word is not.
fn missed(sort: Sort, which: File) -> &'static str {
    match sort {
        Sort::Predicate => "no predicate that the domain declares",
        Sort::Function => "no function that the domain declares",
        Sort::Parameter if which == File::Domain => "no parameter of this action",
        _ => "no object of these files",
    }
}

/// What is wanted in the place of an unknown word.
fn wanted(sort: Sort, which: File) -> &'static str {
    match sort {
        Sort::Predicate => "the name of a predicate of `(:predicates ..)` in the domain",
        Sort::Function =>
            "`total-cost`, or the name of a function of `(:functions ..)` in the domain",
        Sort::Parameter => match which {
            File::Domain => "a variable of `:agent` or `:parameters` of this action",
            File::Problem => "the name of an object; variables stand in actions alone",
        },
        Sort::Object | Sort::Action => {
            "the name of an object of `(:constants ..)` in the domain or `(:objects ..)` in the problem"
        }
    }
}

/// Writes the nearest name of items or signatures, where there is one.
fn tell_nearest(
    alloc: Global,
    out: &mut String,
    word: &str,
    known: &[&Tree],
) -> Result<(), AllocError> {
    let mut names = Vec::new(alloc);
    add_names(&mut names, known)?;
    match nearest(alloc, word, names.as_slice())? {
        Some(near) => write!(out, "; the nearest is `{near}`"),
        None => Ok(()),
    }
}

/// Tells of a word of this file that is not declared.
pub(crate) fn tell_unknown(
    alloc: Global,
    out: &mut String,
    pair: &Pair<'_>,
    which: File,
    position: &Position<'_>,
    word: &str,
) -> Result<(), AllocError> {
    let sort = sort_of(position.role, word);
    let missed = missed(sort, which);
    write!(out, "`{word}` is {missed}")?;
    let known = usable(alloc, pair, sort, position.section)?;
    tell_nearest(alloc, out, word, known.as_slice())?;
    let wanted = wanted(sort, which);
    write!(out, "\nwanted: {wanted}\n")
}
