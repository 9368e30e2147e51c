//! The objects of a factor in object order.

ghost use Rattle.std.specs.Prelude.{◌≡◌, map, IfOk};
ghost use Rattle.mp_checker.specs.Numbering.{object_number as object_of};
ghost use Rattle.mp_lifting.specs.Privates.{private_in};

use crate::atoms::object_number;
use crate::numbered::ObjectNumber;
use mp_lifting::PrivateNames;
use mp_list::{List, OutOfMemory};
use mp_sexp::{Name, NameTable};
use std::alloc::Global;

/// These objects in numbers.
fn numbers_of(
    alloc: Global,
    names: &NameTable<'_>,
    privates: &PrivateNames<'_>,
    objects: &[&Name],
) -> Result<List<ObjectNumber>, OutOfMemory>
    ensures { IfOk result (λ made. made
        ≡ map (λ n. object_of names.now (private_in privates.now) n.now) objects.now) }
{
    let mut made = List::with_capacity(alloc, objects.len())?;
    for object in objects {
        made.push(object_number(names, privates, object)?)?;
    }
    Ok(made)
}

/// The objects in numbers, in object order.
pub fn object_numbers(
    alloc: Global,
    names: &NameTable<'_>,
    privates: &PrivateNames<'_>,
    objects: &NameTable<'_>,
) -> Result<List<ObjectNumber>, OutOfMemory>
    ensures { IfOk result (λ made. made ≡ map (object_of names.now (private_in privates.now)) objects.now) }
{
    let made = numbers_of(alloc, names, privates, objects.as_slice())?;
    Ok(made)
}
