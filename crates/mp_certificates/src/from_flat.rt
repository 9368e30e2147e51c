//! Certificates whose lists have memory of their own, made of those in flat lists.

ghost use Rattle.std.specs.Prelude.{◌≡◌, IfOk};
ghost use Rattle.std.specs.List.Sorted.{IsStrictlyIncreasing};
ghost use Rattle.mp_audit.specs.FlatCertificates.{certificate_of};

use mp_audit::{Bound, BoundList, Certificate, FactLists, FlatBound, FlatBounds, FlatCertificate};
use mp_list::{List, OutOfMemory};
use mp_sets::FactList;
use std::alloc::Global;

/// Numbers that rise as a list of facts.
fn fact_list(alloc: Global, numbers: &[u32]) -> Result<FactList, OutOfMemory>
    requires { IsStrictlyIncreasing numbers.now }
    ensures { IfOk result (λ list. list ≡ numbers.now) }
{
    let mut list = FactList::new(alloc);
    for number in numbers {
        list.push(*number)?;
    }
    Ok(list)
}

/// The private facts of each agent in an entry.
fn private_lists(alloc: Global, entry: &FlatBound<'_>) -> Result<FactLists, OutOfMemory>
    ensures { IfOk result (λ lists. lists ≡ entry.now.privates) }
{
    let mut lists = List::with_capacity(alloc, entry.agents())?;
    while let Some(facts) = entry.privates(lists.len()) {
        lists.push(fact_list(alloc, facts)?)?;
    }
    Ok(lists)
}

/// An entry with lists of its own.
fn own_entry(alloc: Global, entry: &FlatBound<'_>) -> Result<Bound, OutOfMemory>
    ensures { IfOk result (λ made. made ≡ entry.now) }
{
    let publics = fact_list(alloc, entry.publics())?;
    let privates = private_lists(alloc, entry)?;
    Ok(Bound {
        agent: entry.agent(),
        bound: entry.bound(),
        publics,
        privates,
    })
}

/// All entries with lists of their own.
fn own_entries(alloc: Global, flat: &FlatBounds) -> Result<BoundList, OutOfMemory>
    ensures { IfOk result (λ bounds. bounds ≡ flat.now.entries) }
{
    let mut bounds = List::with_capacity(alloc, flat.len())?;
    while let Some(entry) = flat.get(bounds.len()) {
        bounds.push(own_entry(alloc, &entry)?)?;
    }
    Ok(bounds)
}

/// The certificate that is given in flat lists.
pub(crate) fn from_flat(alloc: Global, flat: &FlatCertificate) -> Result<Certificate, OutOfMemory>
    ensures { IfOk result (λ made. made ≡ certificate_of flat.now) }
{
    let bounds = own_entries(alloc, &flat.bounds)?;
    Ok(Certificate {
        cost: flat.cost,
        bounds,
    })
}
