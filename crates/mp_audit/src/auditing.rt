//! The audit of a certificate.

ghost use Rattle.std.specs.Prelude.{◌≡◌, ◌++◌, [], nat_lt, slice_get, IfOk};
ghost use Rattle.std.specs.Option.{option_map_or};
ghost use Rattle.mp_audit.specs.declared.verdict.AuditVerdict.TheVariants as verdicts;
ghost use Rattle.mp_audit.specs.Audited.{bound_of};
ghost use Rattle.mp_audit.specs.Failures.{all_entry_failures, doubles, failure_if, low_starts, verdict_on};
ghost use Rattle.mp_audit.specs.Fits.{AreBoundsFor, IsCertificateFor};
ghost use Rattle.mp_audit.specs.FlatCertificates.{certificate_of};
ghost use Rattle.mp_audit.specs.States.{known_by, HasSizes};
ghost use Rattle.mp_audit.specs.Tables.{AreAllChained, IsReady};

use crate::certificate::Certificate;
use crate::chains::Chains;
use crate::entries::first_failing_entry;
use crate::flat_bounds::{FlatBounds, FlatCertificate};
use crate::flat_certificate::flat_of;
use crate::lookup::{AuditData, bound_in, finders};
use crate::state::{JointSets, start_state};
use crate::table::{Table, table_of};
use crate::verdict::AuditVerdict;
use mp_list::OutOfMemory;
use mp_task::Task;
use std::alloc::Global;

/// An agent whose start has a bound below the cost.
fn low_start(
    known: &AuditData<'_>,
    start: &JointSets,
    task: &Task,
    cost: u64,
) -> Option<AuditVerdict>
    requires ready { IsReady known.now }
    requires sizes { HasSizes known.now.tasks.now start.now }
    ensures { result ≡ slice_get (failure_if
        (nat_lt (bound_of known.now.bounds.now.entries (known_by task.now.me start.now)) cost)
        (verdicts.Start task.now.me)) 0 }
{
    if bound_in(known, task.me, start) < cost {
        Some(AuditVerdict::Start(task.me))
    } else {
        None
    }
}

/// The first agent whose start has a bound below the cost.
fn first_low_start(
    alloc: Global,
    known: &AuditData<'_>,
    cost: u64,
) -> Result<Option<AuditVerdict>, OutOfMemory>
    requires { IsReady known.now }
    ensures { IfOk result (λ first. first ≡ slice_get (low_starts known.now.tasks.now known.now.bounds.now.entries cost) 0) }
{
    let tasks = known.tasks;
    let start = start_state(alloc, tasks)?;
    for task in tasks {
        if let Some(failure) = low_start(known, &start, task, cost) {
            return Ok(Some(failure));
        }
    }
    Ok(None)
}

/// The first failure of a certificate in which no entry repeats an earlier one.
fn first_failure(
    alloc: Global,
    known: &AuditData<'_>,
    cost: u64,
) -> Result<Option<AuditVerdict>, OutOfMemory>
    requires { IsReady known.now }
    ensures { IfOk result (λ first. first ≡ slice_get (low_starts known.now.tasks.now known.now.bounds.now.entries cost
        ++ all_entry_failures known.now.tasks.now known.now.bounds.now.entries) 0) }
{
    if let Some(failure) = first_low_start(alloc, known, cost)? {
        return Ok(Some(failure));
    }
    let first = first_failing_entry(alloc, known)?;
    Ok(first)
}

/// What is found by the first failure, if there is one.
fn verdict_by(first: Option<AuditVerdict>) -> AuditVerdict
    ensures { result ≡ option_map_or (λ failure. failure) first verdicts.Holds }
{
    match first {
        Some(failure) => failure,
        None => AuditVerdict::Holds,
    }
}

/// What is found where no entry repeats an earlier one.
fn audit_once(
    alloc: Global,
    tasks: &[Task],
    bounds: &FlatBounds,
    cost: u64,
    chains: Chains,
) -> Result<AuditVerdict, OutOfMemory>
    requires bounds { AreBoundsFor tasks.now bounds.now.entries }
    requires all { AreAllChained tasks.now bounds.now.entries chains }
    requires once { doubles bounds.now.entries ≡ [] }
    ensures { IfOk result (λ v. v ≡ verdict_on tasks.now (record { cost = cost; bounds = bounds.now.entries })) }
{
    let finders = finders(alloc, tasks)?;
    let known = AuditData {
        tasks,
        bounds,
        chains,
        finders,
    };
    let first = first_failure(alloc, &known, cost)?;
    Ok(verdict_by(first))
}

/// What is found of a cost and of entries.
fn audit_bounds(
    alloc: Global,
    tasks: &[Task],
    bounds: &FlatBounds,
    cost: u64,
) -> Result<AuditVerdict, OutOfMemory>
    requires { AreBoundsFor tasks.now bounds.now.entries }
    ensures { IfOk result (λ v. v ≡ verdict_on tasks.now (record { cost = cost; bounds = bounds.now.entries })) }
{
    match table_of(alloc, tasks, bounds)? {
        Table::Once(chains) => audit_once(alloc, tasks, bounds, cost, chains),
        Table::Double(entry) => Ok(AuditVerdict::Double(entry)),
    }
}

/// As `audit`, of a certificate whose entries take little memory.
pub fn audit_flat(
    alloc: Global,
    tasks: &[Task],
    certificate: &FlatCertificate,
) -> Result<AuditVerdict, OutOfMemory>
    requires { IsCertificateFor tasks.now (certificate_of certificate.now) }
    ensures { IfOk result (λ v. v ≡ verdict_on tasks.now (certificate_of certificate.now)) }
{
    audit_bounds(alloc, tasks, &certificate.bounds, certificate.cost)
}

/// What an audit finds of a certificate: the first of its failures, or that it holds where there is none. The tasks are
/// those of a team and agree, the facts of the entries are facts of the team, each bound is from 1 to 2^60, and the cost
/// is at most 2^60. First come the entries that repeat an earlier one, then the agents whose start has a bound below the
/// cost, and then for each entry whether it is a goal, and the actions that lead on from it too cheaply, each in the
/// search of its own agent before those of the others. Refuses only for want of memory.
pub fn audit(
    alloc: Global,
    tasks: &[Task],
    certificate: &Certificate,
) -> Result<AuditVerdict, OutOfMemory>
    requires { IsCertificateFor tasks.now certificate.now }
    ensures { IfOk result (λ v. v ≡ verdict_on tasks.now certificate.now) }
{
    let flat = flat_of(alloc, tasks, certificate)?;
    audit_flat(alloc, tasks, &flat)
}
