//! The numbers of objects.

ghost use Rattle.std.specs.Prelude.{◌≡◌, ◌↔◌, ℕ, Contains, IfOk};
ghost use Rattle.std.specs.List.{flat_map, range_with_len};
ghost use Rattle.std.specs.List.Sorted.{IsStrictlyIncreasing};
ghost use Rattle.mp_typing.specs.ByType.{items_of};

use crate::by_type::{ByType, items_under};
use indexmap::IndexSet;
use mp_list::{List, OutOfMemory};
use mp_sexp::Name;
use std::alloc::Global;

/// Numbers of objects: their places in object order, counted from 0.
pub type ObjectList = List<u64>;

/// All that is listed with these types, in their order.
fn listed_with(alloc: Global, listed: &ByType<u64>, types: &[Name]) -> Result<Vec<u64>, OutOfMemory>
    ensures { IfOk result (λ numbers. numbers.items ≡ flat_map (items_of listed.now.entries) types.now) }
{
    let mut numbers = Vec::new(alloc);
    for name in types {
        numbers.extend_from_slice(items_under(listed, name))?;
    }
    Ok(numbers)
}

/// The same numbers as a list.
fn list_of(alloc: Global, numbers: &[u64]) -> Result<ObjectList, OutOfMemory>
    ensures { IfOk result (λ list. list ≡ numbers.now) }
{
    let mut list = List::with_capacity(alloc, numbers.len())?;
    for number in numbers {
        list.push(*number)?;
    }
    Ok(list)
}

/// Numbers in rising order, each once.
fn in_order(alloc: Global, numbers: &mut Vec<u64>) -> Result<ObjectList, OutOfMemory>
    ensures { IfOk result (λ list. IsStrictlyIncreasing list
        × ((number : ℕ) → Contains list number ↔ Contains numbers.old.items number)) }
{
    // What is listed with one type rises, and such runs are merged.
    numbers.sort()?;
    numbers.dedup();
    list_of(alloc, numbers.as_slice())
}

/// What is listed with these types, in rising order. Refuses only for want of memory.
pub fn listed_under(
    alloc: Global,
    listed: &ByType<u64>,
    types: &IndexSet<Name>,
) -> Result<ObjectList, OutOfMemory>
    ensures { IfOk result (λ list. IsStrictlyIncreasing list
        × ((number : ℕ) → Contains list number ↔ Contains (flat_map (items_of listed.now.entries) types.now.keys) number)) }
{
    let mut numbers = listed_with(alloc, listed, types.as_slice())?;
    in_order(alloc, &mut numbers)
}

/// All numbers below a count. Refuses only for want of memory.
pub fn all_below(alloc: Global, count: u64) -> Result<ObjectList, OutOfMemory>
    ensures { IfOk result (λ list. list ≡ range_with_len 0 count) }
{
    let mut list = List::new(alloc);
    for number in 0..count {
        list.push(number)?;
    }
    Ok(list)
}
