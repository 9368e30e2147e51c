//! Problems of another domain.

use crate::pair::{Pair, push_place_of};
use mp_positions::{members_of, place_of, word_of};
use mp_sexp::Tree;
use std::alloc::AllocError;

/// The name in the title of a file's tree.
fn name_in_title(tree: &Tree) -> Option<&Tree> {
    match members_of(tree) {
        [_, title, ..] => members_of(title).get(1),
        _ => None,
    }
}

/// Tells of a problem that names another domain than the agent's.
pub(crate) fn tell_owner(out: &mut String, pair: &Pair<'_>, word: &str) -> Result<(), AllocError> {
    write!(out, "`{word}` is not the name of this agent's domain")?;
    match name_in_title(pair.domain_tree) {
        Some(tree) => {
            let name = word_of(tree);
            write!(out, ", which is `{name}`, at ")?;
            push_place_of(out, pair.domain, place_of(tree))?;
            write!(out, "\nwanted: `{name}`\n")
        }
        None => out.push('\n'),
    }
}
