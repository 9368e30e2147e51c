//! The team's numbers of public facts.

ghost use Rattle.std.specs.Prelude.{◌≡◌, ◌+◌, ◌++◌, ◌∷◌, ◌≤◌, [], length, map, if◌then◌else◌, slice_index_or, IfOk, OnOk};
ghost use Rattle.std.specs.Cmp.Lexicographic.{slice_cmp};
ghost use Rattle.std.specs.List.Sorted.{IsStrictlySortedBy};
ghost use Rattle.std.specs.Ordering.{nat_cmp};
ghost use Rattle.mp_sets.specs.Numbers.{IsAboveLast};
ghost use Rattle.mp_sexp.specs.Numbers.{number_in};
ghost use Rattle.mp_task.specs.Limits.{AllLess};
ghost use Rattle.mp_grounder.specs.Places.{text_places_in};
ghost use Rattle.mp_split.specs.Common.{AreOf};

use mp_list::OutOfMemory;
use mp_sets::FactList;
use mp_sexp::{Name, NameTable};
use std::alloc::Global;

/// The number of a text in a table.
fn number_of(table: &NameTable<'_>, text: &Name) -> u32
    requires { length table.now ≤ 1048560 }
    ensures { result ≡ number_in table.now text.now }
{
    table.number(text) as u32
}

/// The places of texts in a table that has them all, both in the order of their bytes.
pub(crate) fn numbers_of(
    alloc: Global,
    table: &NameTable<'_>,
    texts: &[Name],
) -> Result<FactList, OutOfMemory>
    requires few { length table.now ≤ 1048560 }
    requires rise { IsStrictlySortedBy (slice_cmp nat_cmp) table.now }
    requires texts { AreOf table.now texts.now }
    ensures { IfOk result (λ list. list ≡ text_places_in table.now texts.now) }
{
    let mut numbers = FactList::with_capacity(alloc, texts.len())?;
    for text in texts {
        numbers.push(number_of(table, text))?;
    }
    Ok(numbers)
}

/// The number at a place, and 0 past the end.
fn number_at(numbers: &[u32], place: u32) -> u32
    ensures { result ≡ slice_index_or numbers.now place 0 }
{
    match numbers.get(place as usize) {
        Some(number) => *number,
        None => 0,
    }
}

/// The numbers at rising places of a list that rises.
pub(crate) fn numbers_at(
    alloc: Global,
    numbers: &FactList,
    places: &FactList,
) -> Result<FactList, OutOfMemory>
    requires { AllLess (length numbers.now) places.now }
    ensures { IfOk result (λ list. list ≡ map (λ n. slice_index_or numbers.now n 0) places.now) }
{
    let all = numbers.as_slice();
    let mut out = FactList::with_capacity(alloc, places.len())?;
    for place in places.as_slice() {
        out.push(number_at(all, *place))?;
    }
    Ok(out)
}

/// Adds a place where its item passes a test.
pub(crate) fn add_place(places: &mut FactList, place: u32, passes: bool) -> Result<(), OutOfMemory>
    requires { IsAboveLast places.old place }
    ensures above { IsAboveLast places.new (place + 1) }
    ensures added { OnOk result (places.new ≡ places.old ++ (if passes then place ∷ [] else [])) }
{
    if passes {
        places.push(place)?;
    }
    Ok(())
}
