//! Public predicates that several factors declare.

use crate::texts::TextSet;
use mp_forms::{Signature, SignatureList};
use mp_list::OutOfMemory;
use mp_typing::CheckedFactor;
use std::alloc::Global;
use std::collections::HashMap;

/// With how many arguments public predicates are declared first.
type Counts<'a> = HashMap<&'a [u8], usize>;

/// Notes a public predicate that was declared with another number of arguments before.
fn note_predicate<'a>(
    counts: &mut Counts<'a>,
    several: &mut TextSet<'a>,
    predicate: &'a Signature,
) -> Result<(), OutOfMemory> {
    let name = predicate.word.name.as_slice();
    let count = predicate.params.len();
    match counts.get(name).copied() {
        Some(first) => {
            if first != count {
                several.insert(name)?;
            }
        }
        None => {
            counts.insert(name, count)?;
        }
    }
    Ok(())
}

/// Notes those of the public predicates of a factor that were declared with another number of arguments before.
fn note_predicates<'a>(
    counts: &mut Counts<'a>,
    several: &mut TextSet<'a>,
    predicates: &'a SignatureList,
) -> Result<(), OutOfMemory> {
    for predicate in predicates.as_slice() {
        if !predicate.private {
            note_predicate(counts, several, predicate)?;
        }
    }
    Ok(())
}

/// Notes the public predicates that factors declare with different numbers of arguments.
fn note_team<'a>(
    counts: &mut Counts<'a>,
    several: &mut TextSet<'a>,
    team: &'a [CheckedFactor],
) -> Result<(), OutOfMemory> {
    for checked in team {
        note_predicates(counts, several, &checked.factor().domain.predicates)?;
    }
    Ok(())
}

/// The public predicates that factors declare with different numbers of arguments.
pub(crate) fn several_counts(
    alloc: Global,
    team: &[CheckedFactor],
) -> Result<TextSet<'_>, OutOfMemory> {
    let mut counts = HashMap::new(alloc);
    let mut several = TextSet::new(alloc);
    note_team(&mut counts, &mut several, team)?;
    Ok(several)
}
