//! The names that two files declare.

use crate::pair::Pair;
use mp_positions::{add_items, add_signatures, members_of, section_of, word_of};
use mp_sexp::Tree;
use std::alloc::{AllocError, Global};

/// What a name is declared as.
#[derive(Clone, Copy, Debug, PartialEq, Eq)]
pub(crate) enum Sort {
    Predicate,
    Function,
    Action,
    Parameter,
    Object,
}

/// The signatures of a section of the domain. Refuses only for want of memory.
pub(crate) fn signatures<'t>(
    alloc: Global,
    pair: &Pair<'t>,
    keyword: &str,
) -> Result<Vec<&'t Tree>, AllocError> {
    let mut out = Vec::new(alloc);
    if let Some(section) = section_of(pair.domain_tree, keyword) {
        add_signatures(&mut out, section)?;
    }
    Ok(out)
}

/// Adds the items of a section.
fn add_section<'t>(
    out: &mut Vec<&'t Tree>,
    tree: &'t Tree,
    keyword: &str,
) -> Result<(), AllocError> {
    match section_of(tree, keyword) {
        Some(section) => add_items(out, section),
        None => Ok(()),
    }
}

/// The constants of the domain. Refuses only for want of memory.
pub(crate) fn constants<'t>(alloc: Global, pair: &Pair<'t>) -> Result<Vec<&'t Tree>, AllocError> {
    let mut out = Vec::new(alloc);
    add_section(&mut out, pair.domain_tree, ":constants")?;
    Ok(out)
}

/// The objects of the problem. Refuses only for want of memory.
pub(crate) fn objects<'t>(alloc: Global, pair: &Pair<'t>) -> Result<Vec<&'t Tree>, AllocError> {
    let mut out = Vec::new(alloc);
    add_section(&mut out, pair.problem_tree, ":objects")?;
    Ok(out)
}

/// Adds the parameters of an action.
fn add_parameters<'t>(out: &mut Vec<&'t Tree>, action: &'t Tree) -> Result<(), AllocError> {
    let mut key = "";
    for tree in members_of(action) {
        match key {
            ":agent" => out.push(tree)?,
            ":parameters" => add_items(out, tree)?,
            _ => {}
        }
        key = word_of(tree);
    }
    Ok(())
}

/// The parameters of an action. Refuses only for want of memory.
pub(crate) fn parameters<'t>(alloc: Global, action: &'t Tree) -> Result<Vec<&'t Tree>, AllocError> {
    let mut out = Vec::new(alloc);
    add_parameters(&mut out, action)?;
    Ok(out)
}

/// The constants, the objects and the parameters of an action. Refuses only for want of memory.
fn terms<'t>(
    alloc: Global,
    pair: &Pair<'t>,
    action: &'t Tree,
) -> Result<Vec<&'t Tree>, AllocError> {
    let mut out = constants(alloc, pair)?;
    add_section(&mut out, pair.problem_tree, ":objects")?;
    add_parameters(&mut out, action)?;
    Ok(out)
}

/// The items or signatures that may be meant by a name that is used as one of a sort, in this section. Refuses only for
/// want of memory.
pub(crate) fn usable<'t>(
    alloc: Global,
    pair: &Pair<'t>,
    sort: Sort,
    section: &'t Tree,
) -> Result<Vec<&'t Tree>, AllocError> {
    match sort {
        Sort::Predicate => signatures(alloc, pair, ":predicates"),
        Sort::Function => signatures(alloc, pair, ":functions"),
        Sort::Parameter => parameters(alloc, section),
        Sort::Object | Sort::Action => terms(alloc, pair, section),
    }
}
