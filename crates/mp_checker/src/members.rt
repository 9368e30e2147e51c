//! The objects that may stand for parameters.

ghost use Rattle.std.specs.Prelude.{◌≡◌, map, false, true, slice_set, slice_index_or, length, IfOk};
ghost use Rattle.mp_typing.specs.Members.{Members};
ghost use Rattle.mp_typing.specs.ObjectList.{object_list};
ghost use Rattle.mp_checker.specs.Numbering.{flags_at, member_flags as flags_for};

use mp_forms::{Typed, TypedList};
use mp_list::{List, OutOfMemory};
use mp_typing::{CheckedFactor, ObjectList, names_of};
use std::alloc::Global;
use std::marker::Model;

/// A flag for each object. Contracts see it as their list.
#[derive(Drop)]
pub struct ObjectFlags {
    flags: Vec<bool>,
}

impl Model for ObjectFlags {
    ghost use Rattle.std.specs.Prelude.{List, Bool};

    ghost Value = { List Bool };

    ghost view = { λ f. f.flags.items };
}

impl ObjectFlags {
    /// Of so many objects the flags that these numbers have.
    pub fn new(
        alloc: Global,
        count: usize,
        numbers: &ObjectList,
    ) -> Result<ObjectFlags, OutOfMemory>
        ensures { IfOk result (λ flags. flags ≡ flags_at count numbers.now) }
    {
        let mut flags = vec![in alloc; false; count]?;
        for number in numbers.as_slice() {
            set_flag(&mut flags, *number);
        }
        Ok(ObjectFlags { flags })
    }

    /// The flag at a place, and no flag past the end.
    pub fn is_set(&self, place: usize) -> bool
        ensures { result ≡ slice_index_or self.now place false }
    {
        match self.flags.get(place) {
            Some(flag) => *flag,
            None => false,
        }
    }
}

/// Sets the flag of a number, where there is one.
fn set_flag(flags: &mut Vec<bool>, number: u64)
    ensures { flags.new.items ≡ slice_set flags.old.items number true }
{
    let place = number as usize;
    if place < flags.len() {
        flags[place] = true;
    }
}

/// Of so many objects those that may stand for a parameter.
fn member_flags(
    alloc: Global,
    factor: &CheckedFactor,
    count: usize,
    param: &Typed,
) -> Result<ObjectFlags, OutOfMemory>
    requires { count ≡ length (object_list factor.now.domain factor.now.problem) }
    ensures { IfOk result (λ flags. flags ≡ flags_for factor.now param.now) }
{
    let asked = names_of(alloc, &param.types)?;
    let numbers = factor.members(&asked)?;
    let flags = ObjectFlags::new(alloc, count, &numbers)?;
    Ok(flags)
}

/// For each of these parameters the objects that may stand for it, of so many.
pub fn all_members(
    alloc: Global,
    factor: &CheckedFactor,
    count: usize,
    params: &TypedList,
) -> Result<List<ObjectFlags>, OutOfMemory>
    requires { count ≡ length (object_list factor.now.domain factor.now.problem) }
    ensures { IfOk result (λ made. made ≡ map (flags_for factor.now) params.now) }
{
    let mut made = List::with_capacity(alloc, params.len())?;
    for param in params.as_slice() {
        made.push(member_flags(alloc, factor, count, param)?)?;
    }
    Ok(made)
}
