//! Where the two files of a factor use types.

use mp_forms::{Factor, File, Signature, Typed, Word};
use mp_list::OutOfMemory;
use std::alloc::Global;

/// A word that names a type, and its file.
#[derive(Clone, Copy)]
pub(crate) struct Use<'a> {
    pub file: File,
    pub word: &'a Word,
}

/// Adds the types of names or variables.
fn add_typed<'a>(all: &mut Vec<Use<'a>>, file: File, list: &'a [Typed]) -> Result<(), OutOfMemory> {
    for typed in list {
        for word in typed.types.as_slice() {
            all.push(Use { file, word })?;
        }
    }
    Ok(())
}

/// Adds the types of arguments.
fn add_signatures<'a>(
    all: &mut Vec<Use<'a>>,
    signatures: &'a [Signature],
) -> Result<(), OutOfMemory> {
    for signature in signatures {
        add_typed(all, File::Domain, signature.params.as_slice())?;
    }
    Ok(())
}

/// All uses of types: those of types, constants, arguments, parameters and objects.
pub(crate) fn uses_in<'a>(alloc: Global, factor: &'a Factor) -> Result<Vec<Use<'a>>, OutOfMemory> {
    let domain = &factor.domain;
    let mut all = Vec::new(alloc);
    add_typed(&mut all, File::Domain, domain.types.as_slice())?;
    add_typed(&mut all, File::Domain, domain.constants.as_slice())?;
    add_signatures(&mut all, domain.predicates.as_slice())?;
    add_signatures(&mut all, domain.functions.as_slice())?;
    for schema in domain.schemas.as_slice() {
        add_typed(&mut all, File::Domain, schema.params.as_slice())?;
    }
    add_typed(&mut all, File::Problem, factor.problem.objects.as_slice())?;
    Ok(all)
}
