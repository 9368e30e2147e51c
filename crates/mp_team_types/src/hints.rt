//! Which types there is a hint on.

use crate::uses::{Use, uses_in};
use mp_forms::{Factor, Typed};
use mp_hint_lines::{FileNames, begin_hint};
use mp_hints::{nearest, text_of};
use mp_list::OutOfMemory;
use std::alloc::Global;
use std::collections::HashSet;

/// The most types of a factor that are told of.
const MOST: usize = 12;

/// The most declared types that are looked at for the nearest one.
const MOST_DECLARED: usize = 4000;

/// The names of the declared types, and `object`.
fn declared_types<'a>(alloc: Global, types: &'a [Typed]) -> Result<HashSet<&'a [u8]>, OutOfMemory> {
    let mut names = HashSet::new(alloc);
    names.insert(b"object".as_slice())?;
    for typed in types {
        names.insert(typed.word.name.as_slice())?;
    }
    Ok(names)
}

/// The declared types as texts.
fn spellings<'a>(alloc: Global, types: &'a [Typed]) -> Result<Vec<&'a str>, OutOfMemory> {
    let mut texts = Vec::new(alloc);
    for typed in types {
        if texts.len() < MOST_DECLARED {
            texts.push(text_of(typed.word.name.as_slice()))?;
        }
    }
    Ok(texts)
}

/// Tells that a type is used and not declared.
fn tell(
    alloc: Global,
    out: &mut String,
    files: FileNames<'_>,
    types: &[&str],
    used: Use<'_>,
) -> Result<(), OutOfMemory> {
    let name = text_of(used.word.name.as_slice());
    begin_hint(out, files.name(used.file), used.word.at)?;
    write!(out, "the type `{name}` is not declared")?;
    if let Some(near) = nearest(alloc, name, types)? {
        write!(out, "; the nearest that is declared is `{near}`")?;
    }
    out.push('\n')?;
    Ok(())
}

/// Tells which of some uses are of a type that is not known, each type once.
fn tell_unknown<'a>(
    alloc: Global,
    out: &mut String,
    files: FileNames<'_>,
    types: &[&str],
    uses: &[Use<'a>],
    known: &mut HashSet<&'a [u8]>,
) -> Result<(), OutOfMemory> {
    let mut count = 0;
    for used in uses {
        if count < MOST && known.insert(used.word.name.as_slice())? {
            tell(alloc, out, files, types, *used)?;
            count += 1;
        }
    }
    Ok(())
}

/// Tells which of some uses are of a type that is not among the declared ones.
fn tell_uses<'a>(
    alloc: Global,
    out: &mut String,
    files: FileNames<'_>,
    types: &'a [Typed],
    uses: &[Use<'a>],
) -> Result<(), OutOfMemory> {
    let texts = spellings(alloc, types)?;
    let mut known = declared_types(alloc, types)?;
    tell_unknown(alloc, out, files, texts.as_slice(), uses, &mut known)
}

/// Writes hints on types that a factor uses and does not declare, at the first use of each. Refuses only for want of
/// memory.
pub fn explain_types(
    alloc: Global,
    out: &mut String,
    factor: &Factor,
    files: FileNames<'_>,
) -> Result<(), OutOfMemory> {
    let uses = uses_in(alloc, factor)?;
    tell_uses(
        alloc,
        out,
        files,
        factor.domain.types.as_slice(),
        uses.as_slice(),
    )
}
