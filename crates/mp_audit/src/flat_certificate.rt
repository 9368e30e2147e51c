//! Certificates whose entries are put into little memory.

ghost use Rattle.std.specs.Prelude.{◌≡◌, ◌++◌, ◌∷◌, [], length, All, IfOk, OnOk};
ghost use Rattle.mp_audit.specs.Fits.{BoundFits, CertificateFits};
ghost use Rattle.mp_audit.specs.FlatCertificates.{certificate_of};

use crate::certificate::{Bound, Certificate};
use crate::flat_bounds::{FlatBounds, FlatCertificate};
use crate::flat_lists::FlatLists;
use mp_list::OutOfMemory;
use mp_sets::FactList;
use mp_task::Task;
use std::alloc::Global;

/// Adds a list of facts at the end.
fn add_facts(lists: &mut FlatLists, facts: &FactList) -> Result<(), OutOfMemory>
    ensures { OnOk result (lists.new ≡ lists.old ++ facts.now ∷ []) }
{
    lists.push(facts.as_slice())
}

/// Adds lists of facts at the end.
fn add_lists(lists: &mut FlatLists, more: &[FactList]) -> Result<(), OutOfMemory>
    ensures { OnOk result (lists.new ≡ lists.old ++ more.now) }
{
    for facts in more {
        add_facts(lists, facts)?;
    }
    Ok(())
}

/// Makes lists those of an entry.
fn take_lists(lists: &mut FlatLists, bound: &Bound) -> Result<(), OutOfMemory>
    ensures { OnOk result (lists.new ≡ bound.now.publics ∷ bound.now.privates) }
{
    lists.clear();
    add_facts(lists, &bound.publics)?;
    add_lists(lists, bound.privates.as_slice())?;
    Ok(())
}

/// Entries and one more. Its lists are written into the last.
fn with_entry(
    made: FlatBounds,
    bound: &Bound,
    lists: &mut FlatLists,
) -> Result<FlatBounds, OutOfMemory>
    requires { length bound.now.privates ≡ made.agents }
    ensures { IfOk result (λ more. more ≡ record made { entries = made.entries ++ bound.now ∷ [] }) }
{
    take_lists(lists, bound)?;
    made.with(bound.agent, bound.bound, lists)
}

/// Entries that fit the tasks of a team.
fn flat_bounds(alloc: Global, tasks: &[Task], bounds: &[Bound]) -> Result<FlatBounds, OutOfMemory>
    requires { All (BoundFits tasks.now) bounds.now }
    ensures { IfOk result (λ made. made.entries ≡ bounds.now) }
{
    let mut lists = FlatLists::new(alloc);
    let mut made = FlatBounds::new(alloc, tasks.len());
    for bound in bounds {
        made = with_entry(made, bound, &mut lists)?;
    }
    Ok(made)
}

/// A certificate that fits the tasks of a team, with its entries in little memory. Refuses only for want of memory.
pub(crate) fn flat_of(
    alloc: Global,
    tasks: &[Task],
    certificate: &Certificate,
) -> Result<FlatCertificate, OutOfMemory>
    requires { CertificateFits tasks.now certificate.now }
    ensures { IfOk result (λ flat. certificate_of flat ≡ certificate.now) }
{
    let bounds = flat_bounds(alloc, tasks, certificate.bounds.as_slice())?;
    Ok(FlatCertificate {
        cost: certificate.cost,
        bounds,
    })
}
