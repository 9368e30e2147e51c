//! Places of facts.

ghost use Rattle.std.specs.Prelude.{◌≡◌, ◌<◌, ◌++◌, ◌∷◌, [], IfOk, OnOk};
ghost use Rattle.std.specs.List.Sorted.{IsStrictlyIncreasing};
ghost use Rattle.mp_grounder.specs.Numbered.{rising, private_numbers, public_numbers, place_at};

use mp_list::{List, OutOfMemory};
use mp_sets::FactList;
use std::alloc::Global;

/// The places of facts. Private ones come first, so that their numbers are their places.
#[derive(Drop)]
pub struct Places {
    /// How many facts are private.
    pub privates: u32,
    /// For each public fact its place.
    pub publics: List<u32>,
}

/// Numbers that rise as a list of facts.
fn list_of(alloc: Global, numbers: &[u32]) -> Result<FactList, OutOfMemory>
    requires { IsStrictlyIncreasing numbers.now }
    ensures { IfOk result (λ list. list ≡ numbers.now) }
{
    let mut list = FactList::new(alloc);
    for number in numbers {
        list.push(*number)?;
    }
    Ok(list)
}

/// Puts numbers in rising order, each once. Most actions have no or one number, which stands so already.
fn put_in_order(numbers: &mut Vec<u32>)
    ensures { numbers.new.items ≡ rising numbers.old.items }
{
    if numbers.len() <= 1 {
        return;
    }
    numbers.sort_unstable();
    numbers.dedup();
}

/// Some numbers in rising order, each once, as a list of facts.
fn rising_list(alloc: Global, numbers: &mut Vec<u32>) -> Result<FactList, OutOfMemory>
    ensures { IfOk result (λ list. list ≡ rising numbers.old.items) }
{
    put_in_order(numbers);
    list_of(alloc, numbers.as_slice())
}

/// Adds a number where it is that of a private fact.
fn add_private_number(out: &mut Vec<u32>, places: &Places, number: u32) -> Result<(), OutOfMemory>
    ensures { OnOk result (out.new.items ≡ out.old.items ++ private_numbers places.now (number ∷ [])) }
{
    if number < places.privates {
        out.push(number)?;
    }
    Ok(())
}

/// Adds the private ones of some numbers.
fn add_private(out: &mut Vec<u32>, places: &Places, numbers: &[u32]) -> Result<(), OutOfMemory>
    ensures { OnOk result (out.new.items ≡ out.old.items ++ private_numbers places.now numbers.now) }
{
    for number in numbers {
        add_private_number(out, places, *number)?;
    }
    Ok(())
}

/// The place of a public fact.
fn public_place(places: &Places, number: u32) -> u32
    ensures { result ≡ place_at places.now number }
{
    let at = number.saturating_sub(places.privates) as usize;
    places.publics.get(at).copied().unwrap_or(0)
}

/// Adds the place of a number where it is that of a public fact.
fn add_public_place(out: &mut Vec<u32>, places: &Places, number: u32) -> Result<(), OutOfMemory>
    ensures { OnOk result (out.new.items ≡ out.old.items ++ public_numbers places.now (number ∷ [])) }
{
    if number >= places.privates {
        out.push(public_place(places, number))?;
    }
    Ok(())
}

/// Adds the places of the public ones of some numbers.
fn add_public(out: &mut Vec<u32>, places: &Places, numbers: &[u32]) -> Result<(), OutOfMemory>
    ensures { OnOk result (out.new.items ≡ out.old.items ++ public_numbers places.now numbers.now) }
{
    for number in numbers {
        add_public_place(out, places, *number)?;
    }
    Ok(())
}

/// The private ones of some facts by their numbers. What `scratch` has is lost.
pub fn private_places(
    alloc: Global,
    scratch: &mut Vec<u32>,
    places: &Places,
    numbers: &[u32],
) -> Result<FactList, OutOfMemory>
    ensures { IfOk result (λ list. list ≡ rising (private_numbers places.now numbers.now)) }
{
    scratch.clear();
    add_private(scratch, places, numbers)?;
    rising_list(alloc, scratch)
}

/// The public ones of some facts by the places of their texts. What `scratch` has is lost.
pub fn public_places(
    alloc: Global,
    scratch: &mut Vec<u32>,
    places: &Places,
    numbers: &[u32],
) -> Result<FactList, OutOfMemory>
    ensures { IfOk result (λ list. list ≡ rising (public_numbers places.now numbers.now)) }
{
    scratch.clear();
    add_public(scratch, places, numbers)?;
    rising_list(alloc, scratch)
}
