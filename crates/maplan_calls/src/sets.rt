//! Sets of several sizes, as keys of maps too; agents and tags.

ghost use Rattle.std.specs.Prelude.{◌≡◌, ◌<◌, All, IfOk};

use crate::calls::{Call, Out};
use crate::lines::{part, short};
use crate::states::{set_of, tags_of};
use mp_list::{Copied, OutOfMemory};
use mp_sets::{Agent, Bits, FactList};
use std::alloc::Global;
use std::collections::{BTreeMap, HashMap};

/// The numbers below a size that a step divides: none for the step 0.
fn multiples(alloc: Global, size: u32, step: u32) -> Result<FactList, OutOfMemory>
    ensures { IfOk result (λ list. All (λ x. x < size) list) }
{
    let mut list = FactList::new(alloc);
    for x in 0..size {
        if step > 0 && x % step == 0 {
            list.push(x)?;
        }
    }
    Ok(list)
}

/// The set of the numbers below a size that a step divides.
fn set(alloc: Global, size: u32, step: u32) -> Result<Bits, OutOfMemory>
    ensures { IfOk result (λ set. set.size ≡ size) }
{
    Bits::from_list(alloc, size, &multiples(alloc, size, step)?)
}

/// Adds whether the first set has all of the second and is a subset of it, whether they are equal, and how they compare.
fn two(alloc: Global, size: u32, step: u32, other: u32, out: &mut Out) -> Result<(), OutOfMemory> {
    let a = set(alloc, size, step)?;
    let list = multiples(alloc, size, other)?;
    let b = Bits::from_list(alloc, size, &list)?;
    let equal = (a.equal(&b), a == b, a.cmp(&b));
    out.answer(&(a.holds(&list), a.is_subset(&b), equal))
}

/// Adds the members of a copy of a copy.
fn members(alloc: Global, size: u32, step: u32, out: &mut Out) -> Result<(), OutOfMemory> {
    let set = set(alloc, size, step)?;
    let mut copy = Bits::new(alloc, size)?;
    copy.copy_from(&set);
    out.answer(&copy.copy()?.list()?.as_slice())
}

/// Adds the least members from these numbers on.
fn least(
    alloc: Global,
    size: u32,
    step: u32,
    from: &str,
    out: &mut Out,
) -> Result<(), OutOfMemory> {
    let set = set(alloc, size, step)?;
    for word in from.split_whitespace() {
        out.show(&set.least_from(short(word, 0)));
    }
    Ok(())
}

/// Adds the members after deletes and adds, each the multiples of a number.
fn change(alloc: Global, size: u32, rest: &str, out: &mut Out) -> Result<(), OutOfMemory> {
    let mut set = set(alloc, size, short(rest, 1))?;
    let del = multiples(alloc, size, short(rest, 2))?;
    let add = multiples(alloc, size, short(rest, 3))?;
    set.apply(&del, &add);
    out.answer(&set.list()?.as_slice())
}

/// Adds what a map by hash finds by a set where 5 was kept at another.
fn hashed(alloc: Global, size: u32, rest: &str, out: &mut Out) -> Result<(), OutOfMemory> {
    let mut numbers: HashMap<Bits, u64> = HashMap::new(alloc);
    numbers.insert(set_of(alloc, size, part(rest, 1), 0)?, 5)?;
    out.answer(
        &numbers
            .get(&set_of(alloc, size, part(rest, 2), 0)?)
            .copied(),
    )
}

/// The same of a map by order.
fn ordered(alloc: Global, size: u32, rest: &str, out: &mut Out) -> Result<(), OutOfMemory> {
    let mut numbers: BTreeMap<Bits, u64> = BTreeMap::new(alloc);
    numbers.insert(set_of(alloc, size, part(rest, 1), 0)?, 5)?;
    out.answer(
        &numbers
            .get(&set_of(alloc, size, part(rest, 2), 0)?)
            .copied(),
    )
}

/// Adds a copy of tags that stays when other ones come behind, and how it compares to all of these.
fn tags(alloc: Global, first: &str, other: &str, out: &mut Out) -> Result<(), OutOfMemory> {
    let mut tags = tags_of(alloc, first)?;
    let copy = tags.copy()?;
    for tag in tags_of(alloc, other)?.as_slice() {
        tags.push(*tag)?;
    }
    out.answer(&(copy.as_slice(), copy.cmp(&tags)))
}

/// Adds how tags compare to other ones.
fn order(alloc: Global, one: &str, other: &str, out: &mut Out) -> Result<(), OutOfMemory> {
    out.answer(&tags_of(alloc, one)?.cmp(&tags_of(alloc, other)?))
}

/// Adds what a call of sets, agents and tags answers.
pub(crate) fn answer_sets(alloc: Global, call: Call<'_>, out: &mut Out) -> Result<(), OutOfMemory> {
    let rest = call.rest;
    let (size, step) = (short(rest, 0).min(1000), short(rest, 1));
    match call.word {
        "two" => two(alloc, size, step, short(rest, 2), out),
        "members" => members(alloc, size, step, out),
        "least" => least(alloc, size, step, part(rest, 1), out),
        "change" => change(alloc, size, rest, out),
        "hashed" => hashed(alloc, size, rest, out),
        "ordered" => ordered(alloc, size, rest, out),
        "tags" => tags(alloc, part(rest, 0), part(rest, 1), out),
        "order" => order(alloc, part(rest, 0), part(rest, 1), out),
        "agent" => out.answer(&Agent::new(size as u16)),
        "first" => out.answer(&Agent::first()),
        _ => out.answer_not_read(),
    }
}
