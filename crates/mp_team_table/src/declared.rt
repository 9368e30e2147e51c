//! How many names the files of an agent declare.

use mp_forms::{Signature, Typed};
use mp_list::{List, OutOfMemory};
use mp_typing::CheckedFactor;
use std::alloc::Global;
use std::collections::HashSet;

/// How many names the files of an agent declare.
#[derive(Clone, Copy)]
pub(crate) struct Declared {
    pub objects: usize,
    pub types: usize,
    pub public_predicates: usize,
    pub private_predicates: usize,
}

/// The number of different types that are declared.
fn count_types(alloc: Global, types: &[Typed]) -> Result<usize, OutOfMemory> {
    let mut names = HashSet::new(alloc);
    for typed in types {
        names.insert(typed.word.name.as_slice())?;
    }
    Ok(names.len())
}

/// The number of different objects.
fn count_objects(alloc: Global, checked: &CheckedFactor) -> Result<usize, OutOfMemory> {
    let numbers = checked.members(&List::new(alloc))?;
    Ok(numbers.len())
}

/// The number of private predicates.
fn count_private(signatures: &[Signature]) -> usize {
    signatures
        .iter()
        .filter(|signature| signature.private)
        .count()
}

/// How many names the files of an agent declare.
pub(crate) fn declared_in(alloc: Global, checked: &CheckedFactor) -> Result<Declared, OutOfMemory> {
    let factor = checked.factor();
    let predicates = factor.domain.predicates.as_slice();
    let private_predicates = count_private(predicates);
    Ok(Declared {
        objects: count_objects(alloc, checked)?,
        types: count_types(alloc, factor.domain.types.as_slice())?,
        public_predicates: predicates.len().saturating_sub(private_predicates),
        private_predicates,
    })
}
