//! Predicates and functions with another number of terms than declared.

use crate::known::signatures;
use crate::pair::{Pair, push_place_of};
use mp_bracket_hints::quote_place;
use mp_positions::{Position, Role, first_named, members_of, place_of, word_of};
use mp_sexp::Tree;
use std::alloc::{AllocError, Global};

/// The section that declares what stands as this.
fn section_word(role: Role) -> &'static str {
    match role {
        Role::Function => ":functions",
        _ => ":predicates",
    }
}

/// How many variables a signature has.
fn variables(signature: &Tree) -> usize {
    let mut count: usize = 0;
    for tree in members_of(signature) {
        if word_of(tree).starts_with('?') {
            count = count.saturating_add(1);
        }
    }
    count
}

/// Tells how a signature is declared.
fn tell_declared(
    out: &mut String,
    pair: &Pair<'_>,
    count: usize,
    word: &str,
    signature: &Tree,
) -> Result<(), AllocError> {
    let number = variables(signature);
    let place = place_of(signature);
    write!(
        out,
        "terms of `{word}` here: {count}; declared: {number}, at "
    )?;
    push_place_of(out, pair.domain, place)?;
    out.push('\n')?;
    quote_place(out, pair.domain.text, place)?;
    out.push_str("wanted: as many terms as declared\n")
}

/// Tells of a word that is applied to another number of terms than declared.
pub(crate) fn tell_arity(
    alloc: Global,
    out: &mut String,
    pair: &Pair<'_>,
    position: &Position<'_>,
    word: &str,
) -> Result<(), AllocError> {
    let count = members_of(position.around).len().saturating_sub(1);
    let declared = signatures(alloc, pair, section_word(position.role))?;
    match first_named(declared.as_slice(), word) {
        Some(signature) => tell_declared(out, pair, count, word, signature),
        None => out.push_str("wanted: as many terms as declared\n"),
    }
}
