//! Names with which a name may have been confused.

use crate::declared::Declared;
use crate::sharing::{SharingMap, bit_of};
use mp_hints::{nearest, text_of};
use mp_list::OutOfMemory;
use std::alloc::Global;

/// The most names that are looked at.
const MOST: usize = 4000;

/// Whether a declaration is public, and the factor at a place does not have its name.
fn is_candidate(map: &SharingMap<'_>, agent: usize, one: &Declared<'_>) -> bool {
    if one.private {
        return false;
    }
    match map.get(one.word.name.as_slice()) {
        Some(sharing) => sharing.factors & bit_of(agent) == 0,
        None => false,
    }
}

/// The public names that the factor at a place does not have.
fn candidates<'a>(
    alloc: Global,
    all: &[Declared<'a>],
    map: &SharingMap<'a>,
    agent: usize,
) -> Result<Vec<&'a str>, OutOfMemory> {
    let mut names = Vec::new(alloc);
    for one in all {
        if names.len() < MOST && is_candidate(map, agent, one) {
            names.push(text_of(one.word.name.as_slice()))?;
        }
    }
    Ok(names)
}

/// The public name of another factor that is nearest to one of the factor at a place, which does not have it too.
pub fn nearest_to<'a>(
    alloc: Global,
    all: &[Declared<'a>],
    map: &SharingMap<'a>,
    one: &Declared<'a>,
) -> Result<Option<Declared<'a>>, OutOfMemory> {
    let names = candidates(alloc, all, map, one.agent)?;
    let word = text_of(one.word.name.as_slice());
    let Some(near) = nearest(alloc, word, names.as_slice())? else {
        return Ok(None);
    };
    match map.get(near.as_bytes()) {
        Some(sharing) => Ok(sharing.public),
        None => Ok(None),
    }
}
