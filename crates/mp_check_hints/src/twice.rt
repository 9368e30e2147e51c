//! Names that are declared a second time.

use crate::known::{Sort, constants, objects, parameters, signatures};
use crate::pair::{Pair, push_place_of};
use mp_forms::File;
use mp_positions::{Position, Role, Signed, first_named, head, members_of, place_of, word_at};
use mp_sexp::{Place, Tree};
use std::alloc::{AllocError, Global};

/// As what a word is declared.
fn sort_of(role: Role) -> Sort {
    match role {
        Role::Declared(Signed::Predicate) => Sort::Predicate,
        Role::Declared(Signed::Function) => Sort::Function,
        Role::ActionName => Sort::Action,
        Role::Variable => Sort::Parameter,
        _ => Sort::Object,
    }
}

/// What is wanted of declarations of a sort.
fn wanted(sort: Sort) -> &'static str {
    match sort {
        Sort::Predicate => "one declaration of each predicate, private or not",
        Sort::Function => "one declaration of each function, private or not",
        Sort::Action => "another name for each action",
        Sort::Parameter => "another name for each parameter of an action, its agent included",
        Sort::Object => {
            "one object of each name; one that is listed again has the same types, as they are written, and is private in both places or in none"
        }
    }
}

/// The place of the first of some items or signatures that has this name.
fn place_named(trees: &[&Tree], word: &str) -> Option<Place> {
    match first_named(trees, word) {
        Some(tree) => Some(place_of(tree)),
        None => None,
    }
}

/// The place of the first action that has this name.
fn place_of_action(tree: &Tree, word: &str) -> Option<Place> {
    for section in members_of(tree) {
        if head(section) == ":action" && word_at(section, 1) == word {
            return Some(place_of(section));
        }
    }
    None
}

/// Where an object of this name is listed first, and in which file. Refuses only for want of memory.
fn first_object(
    alloc: Global,
    pair: &Pair<'_>,
    word: &str,
) -> Result<Option<(File, Place)>, AllocError> {
    let known = constants(alloc, pair)?;
    if let Some(place) = place_named(known.as_slice(), word) {
        return Ok(Some((File::Domain, place)));
    }
    let listed = objects(alloc, pair)?;
    match place_named(listed.as_slice(), word) {
        Some(place) => Ok(Some((File::Problem, place))),
        None => Ok(None),
    }
}

/// Where a name of the domain is declared first. Refuses only for want of memory.
fn first_in_domain(
    alloc: Global,
    pair: &Pair<'_>,
    sort: Sort,
    section: &Tree,
    word: &str,
) -> Result<Option<Place>, AllocError> {
    if sort == Sort::Action {
        return Ok(place_of_action(pair.domain_tree, word));
    }
    if sort == Sort::Parameter {
        let known = parameters(alloc, section)?;
        return Ok(place_named(known.as_slice(), word));
    }
    let keyword = if sort == Sort::Function {
        ":functions"
    } else {
        ":predicates"
    };
    let known = signatures(alloc, pair, keyword)?;
    Ok(place_named(known.as_slice(), word))
}

/// Where a name is declared first, and in which file. Refuses only for want of memory.
fn first_place(
    alloc: Global,
    pair: &Pair<'_>,
    sort: Sort,
    section: &Tree,
    word: &str,
) -> Result<Option<(File, Place)>, AllocError> {
    if sort == Sort::Object {
        return first_object(alloc, pair, word);
    }
    match first_in_domain(alloc, pair, sort, section, word)? {
        Some(place) => Ok(Some((File::Domain, place))),
        None => Ok(None),
    }
}

/// Tells of a word that declares a name for a second time.
pub(crate) fn tell_twice(
    alloc: Global,
    out: &mut String,
    pair: &Pair<'_>,
    position: &Position<'_>,
    word: &str,
) -> Result<(), AllocError> {
    let sort = sort_of(position.role);
    write!(out, "`{word}` is declared before")?;
    if let Some((which, place)) = first_place(alloc, pair, sort, position.section, word)? {
        out.push_str(", at ")?;
        push_place_of(out, pair.file(which), place)?;
    }
    let wanted = wanted(sort);
    write!(out, "\nwanted: {wanted}\n")
}
