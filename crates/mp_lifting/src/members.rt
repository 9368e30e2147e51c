//! The objects that may stand for parameters.

ghost use Rattle.std.specs.Prelude.{◌≡◌, map, IfOk};
ghost use Rattle.mp_lifting.specs.Lifting.{members_of};

use mp_forms::{Typed, TypedList};
use mp_list::{List, OutOfMemory, to_u32};
use mp_typing::{CheckedFactor, ObjectList, names_of};
use std::alloc::Global;

/// Numbers of 32 bits.
fn short_numbers(alloc: Global, numbers: &ObjectList) -> Result<List<u32>, OutOfMemory>
    ensures { IfOk result (λ made. made ≡ numbers.now) }
{
    let mut made = List::with_capacity(alloc, numbers.len())?;
    for number in numbers.as_slice() {
        made.push(to_u32(*number as usize)?)?;
    }
    Ok(made)
}

/// The numbers of the objects that may stand for a parameter, in object order.
fn list_members(
    alloc: Global,
    factor: &CheckedFactor,
    param: &Typed,
) -> Result<List<u32>, OutOfMemory>
    ensures { IfOk result (λ made. made ≡ members_of factor.now param.now) }
{
    let asked = names_of(alloc, &param.types)?;
    let numbers = factor.members(&asked)?;
    let made = short_numbers(alloc, &numbers)?;
    Ok(made)
}

/// For each of these parameters the objects that may stand for it.
pub fn all_members(
    alloc: Global,
    factor: &CheckedFactor,
    params: &TypedList,
) -> Result<List<List<u32>>, OutOfMemory>
    ensures { IfOk result (λ made. made ≡ map (members_of factor.now) params.now) }
{
    let mut made = List::with_capacity(alloc, params.len())?;
    for param in params.as_slice() {
        made.push(list_members(alloc, factor, param)?)?;
    }
    Ok(made)
}
