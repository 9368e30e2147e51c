//! The private names of a factor.

use crate::texts::TextSet;
use mp_forms::{Factor, SignatureList, TypedList};
use mp_list::OutOfMemory;
use std::alloc::Global;

/// Adds the names of the private ones among predicates.
fn add_predicates<'a>(
    names: &mut TextSet<'a>,
    predicates: &'a SignatureList,
) -> Result<(), OutOfMemory> {
    for predicate in predicates.as_slice() {
        if predicate.private {
            names.insert(predicate.word.name.as_slice())?;
        }
    }
    Ok(())
}

/// Adds the names of the private ones among objects.
fn add_objects<'a>(names: &mut TextSet<'a>, objects: &'a TypedList) -> Result<(), OutOfMemory> {
    for object in objects.as_slice() {
        if object.private {
            names.insert(object.word.name.as_slice())?;
        }
    }
    Ok(())
}

/// The private predicates of a factor.
pub(crate) fn private_predicates(
    alloc: Global,
    factor: &Factor,
) -> Result<TextSet<'_>, OutOfMemory> {
    let mut names = TextSet::new(alloc);
    add_predicates(&mut names, &factor.domain.predicates)?;
    Ok(names)
}

/// The private objects of a factor.
pub(crate) fn private_objects(alloc: Global, factor: &Factor) -> Result<TextSet<'_>, OutOfMemory> {
    let mut names = TextSet::new(alloc);
    add_objects(&mut names, &factor.domain.constants)?;
    add_objects(&mut names, &factor.problem.objects)?;
    Ok(names)
}
