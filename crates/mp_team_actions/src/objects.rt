//! The names of objects by their numbers.

use mp_forms::{Factor, Typed};
use mp_hints::text_of;
use mp_list::OutOfMemory;
use mp_sexp::NameTable;
use std::alloc::Global;

/// Adds the names of objects that are not there yet.
fn add_objects<'a>(names: &mut NameTable<'a>, objects: &'a [Typed]) -> Result<(), OutOfMemory> {
    for object in objects {
        if !names.contains(&object.word.name) {
            names.push(&object.word.name)?;
        }
    }
    Ok(())
}

/// The names of the objects of a factor in object order: constants first, each once.
pub(crate) fn object_names<'a>(
    alloc: Global,
    factor: &'a Factor,
) -> Result<NameTable<'a>, OutOfMemory> {
    let mut names = NameTable::new(alloc);
    add_objects(&mut names, factor.domain.constants.as_slice())?;
    add_objects(&mut names, factor.problem.objects.as_slice())?;
    Ok(names)
}

/// Writes a predicate or function at objects.
pub(crate) fn push_at(
    out: &mut String,
    names: &NameTable<'_>,
    symbol: &str,
    objects: &[u32],
) -> Result<(), OutOfMemory> {
    write!(out, "({symbol}")?;
    for object in objects {
        out.push(' ')?;
        if let Some(name) = names.name(*object as usize) {
            out.push_str(text_of(name.as_slice()))?;
        }
    }
    out.push(')')?;
    Ok(())
}
