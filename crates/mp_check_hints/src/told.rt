//! What is told of a factor that is refused.

use crate::arity::tell_arity;
use crate::owner::tell_owner;
use crate::pair::Pair;
use crate::twice::tell_twice;
use crate::unknown::tell_unknown;
use mp_bracket_hints::tell_place;
use mp_hints::text_of;
use mp_positions::position_at;
use mp_typing::{CheckRefusal, Found};
use std::alloc::{AllocError, Global};

/// Tells of a word that is not declared.
fn tell_unknown_name(
    alloc: Global,
    out: &mut String,
    pair: &Pair<'_>,
    found: &Found,
) -> Result<(), AllocError> {
    let word = text_of(found.name.as_slice());
    tell_place(out, pair.file(found.file), found.at, "F6 unknown ", word)?;
    let position = position_at(pair.tree(found.file), found.file, found.at);
    tell_unknown(alloc, out, pair, found.file, &position, word)
}

/// Tells of a word with another number of terms than declared.
fn tell_number(
    alloc: Global,
    out: &mut String,
    pair: &Pair<'_>,
    found: &Found,
) -> Result<(), AllocError> {
    let word = text_of(found.name.as_slice());
    tell_place(out, pair.file(found.file), found.at, "F7 arity ", word)?;
    let position = position_at(pair.tree(found.file), found.file, found.at);
    tell_arity(alloc, out, pair, &position, word)
}

/// Tells of a word that is declared a second time.
fn tell_second(
    alloc: Global,
    out: &mut String,
    pair: &Pair<'_>,
    found: &Found,
) -> Result<(), AllocError> {
    let word = text_of(found.name.as_slice());
    tell_place(out, pair.file(found.file), found.at, "F8 twice ", word)?;
    let position = position_at(pair.tree(found.file), found.file, found.at);
    tell_twice(alloc, out, pair, &position, word)
}

/// Tells of a problem of another domain.
fn tell_wrong_domain(out: &mut String, pair: &Pair<'_>, found: &Found) -> Result<(), AllocError> {
    let word = text_of(found.name.as_slice());
    tell_place(out, pair.file(found.file), found.at, "F10 domain ", word)?;
    tell_owner(out, pair, word)
}

/// Tells why the two files of an agent, which have the shape of a factor, are refused: the place, the line, and what is
/// declared. Of want of memory nothing is told.
pub fn tell_check(
    alloc: Global,
    out: &mut String,
    pair: &Pair<'_>,
    refusal: &CheckRefusal,
) -> Result<(), AllocError> {
    match refusal {
        CheckRefusal::WrongDomain(found) => tell_wrong_domain(out, pair, found),
        CheckRefusal::UnknownName(found) => tell_unknown_name(alloc, out, pair, found),
        CheckRefusal::Arity(found) => tell_number(alloc, out, pair, found),
        CheckRefusal::Twice(found) => tell_second(alloc, out, pair, found),
        CheckRefusal::OutOfMemory => Ok(()),
    }
}
