//! Which operators have a fact as a precondition, and how many preconditions each operator has.

ghost use Rattle.std.specs.Prelude.{◌≡◌, ℕ, ◌<◌, ◌≤◌, ◌^◌, List, [], All, Contains, length, vec_len, slice_index_or, IfOk, OnOk};
ghost use Rattle.mp_relaxed.specs.Users.{AreCounts, AreFree, AreUsers, Takes};

use crate::rows::Rows;
use mp_list::{List, OutOfMemory};
use std::alloc::Global;

/// Counts each of some preconditions once more.
fn count_uses(uses: &mut Vec<u32>, pre: &[u32])
    requires { All (λ x. x < vec_len uses.old) pre.now }
    ensures { vec_len uses.new ≡ vec_len uses.old }
{
    for x in pre {
        uses[*x as usize] = uses[*x as usize].saturating_add(1);
    }
}

/// How often each fact is a precondition.
fn uses_of(alloc: Global, facts: u32, pres: &Rows) -> Result<Vec<u32>, OutOfMemory>
    requires { All (All (λ x. x < facts)) pres.now }
    ensures { IfOk result (λ uses. vec_len uses ≡ facts) }
{
    let mut uses = vec![in alloc; 0; facts as usize]?;
    for k in 0..pres.len() {
        count_uses(&mut uses, pres.row(k));
    }
    Ok(uses)
}

/// An empty list for each of some numbers, with memory for so many items.
fn empty_lists(alloc: Global, sizes: &[u32]) -> Result<Vec<List<u32>>, OutOfMemory>
    ensures { IfOk result (λ lists. (length lists.items ≡ length sizes.now) × All (λ l. l ≡ []) lists.items) }
{
    let mut lists = Vec::with_capacity(alloc, sizes.len())?;
    for size in sizes {
        lists.push(List::with_capacity(alloc, *size as usize)?)?;
    }
    Ok(lists)
}

/// Notes an operator at each of its preconditions.
fn note(lists: &mut Vec<List<u32>>, pre: &[u32], operator: u32) -> Result<(), OutOfMemory>
    requires { All (λ x. x < vec_len lists.old) pre.now }
    ensures { OnOk result (Takes lists.old.items pre.now operator lists.new.items) }
{
    for x in pre {
        lists[*x as usize].push(operator)?;
    }
    Ok(())
}

/// The operators that have a fact as a precondition, for each fact, an operator as often as it has the fact.
pub(crate) fn users_of(
    alloc: Global,
    facts: u32,
    pres: &Rows,
) -> Result<Vec<List<u32>>, OutOfMemory>
    requires few { length pres.now < 2 ^ 32 }
    requires below { All (All (λ x. x < facts)) pres.now }
    ensures { IfOk result (λ users. AreUsers facts pres.now users.items) }
{
    let uses = uses_of(alloc, facts, pres)?;
    let mut lists = empty_lists(alloc, uses.as_slice())?;
    for k in 0..pres.len() as u32 {
        note(&mut lists, pres.row(k as usize), k)?;
    }
    Ok(lists)
}

/// The operators without preconditions.
pub(crate) fn free_of(alloc: Global, pres: &Rows) -> Result<Vec<u32>, OutOfMemory>
    requires { length pres.now < 2 ^ 32 }
    ensures { IfOk result (λ free. AreFree pres.now free.items) }
{
    let mut free = Vec::new(alloc);
    for k in 0..pres.len() as u32 {
        if pres.row(k as usize).is_empty() {
            free.push(k)?;
        }
    }
    Ok(free)
}

/// How many preconditions each operator has.
pub(crate) fn counts_of(alloc: Global, pres: &Rows) -> Result<Vec<u32>, OutOfMemory>
    ensures { IfOk result (λ counts. AreCounts pres.now counts.items) }
{
    let mut counts = Vec::with_capacity(alloc, pres.len())?;
    for k in 0..pres.len() {
        counts.push(pres.count(k))?;
    }
    Ok(counts)
}
