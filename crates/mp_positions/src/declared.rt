//! What a file declares.

use crate::trees::{head, is_list, members_of, word_of};
use mp_sexp::Tree;
use std::alloc::AllocError;

/// The first section of a file's tree that begins with this word.
pub fn section_of<'t>(tree: &'t Tree, keyword: &str) -> Option<&'t Tree> {
    for section in members_of(tree) {
        if head(section) == keyword {
            return Some(section);
        }
    }
    None
}

/// Adds the words of a typed list that are items, and of a private block in it.
fn add_words<'t>(out: &mut Vec<&'t Tree>, list: &'t Tree) -> Result<(), AllocError> {
    let mut is_type = false;
    for tree in members_of(list) {
        let word = word_of(tree);
        if is_type {
            is_type = false;
        } else if word == "-" {
            is_type = true;
        } else if !word.is_empty() && !word.starts_with(':') {
            out.push(tree)?;
        }
    }
    Ok(())
}

/// Adds the words of a typed list that are items, also those in private blocks: of objects or parameters.
pub fn add_items<'t>(out: &mut Vec<&'t Tree>, list: &'t Tree) -> Result<(), AllocError> {
    add_words(out, list)?;
    for block in members_of(list) {
        if head(block) == ":private" {
            add_words(out, block)?;
        }
    }
    Ok(())
}

/// Adds the lists among the members of a list that are no private blocks.
fn add_lists<'t>(out: &mut Vec<&'t Tree>, list: &'t Tree) -> Result<(), AllocError> {
    for tree in members_of(list) {
        if is_list(tree) && head(tree) != ":private" {
            out.push(tree)?;
        }
    }
    Ok(())
}

/// Adds the signatures of a section of predicates or functions, also those in private blocks.
pub fn add_signatures<'t>(out: &mut Vec<&'t Tree>, section: &'t Tree) -> Result<(), AllocError> {
    add_lists(out, section)?;
    for block in members_of(section) {
        if head(block) == ":private" {
            add_lists(out, block)?;
        }
    }
    Ok(())
}

/// Adds the names of items, which are words, and of signatures, which begin with them.
pub fn add_names<'t>(out: &mut Vec<&'t str>, trees: &[&'t Tree]) -> Result<(), AllocError> {
    for tree in trees {
        out.push(name_of(*tree))?;
    }
    Ok(())
}

/// The name of an item, which is a word, or of a signature, which begins with it.
pub fn name_of(tree: &Tree) -> &str {
    if is_list(tree) {
        return head(tree);
    }
    word_of(tree)
}

/// The first of some items or signatures that has this name.
pub fn first_named<'t>(trees: &[&'t Tree], name: &str) -> Option<&'t Tree> {
    for tree in trees {
        if name_of(*tree) == name {
            return Some(*tree);
        }
    }
    None
}
