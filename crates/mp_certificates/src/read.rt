//! Certificates that are read from their texts.

ghost use Rattle.std.specs.Prelude.{◌≡◌, ◌+◌, ◌<◌, ◌≤◌, ◌^◌, All, IfErr, IfOk, length};
ghost use Rattle.mp_task.specs.Limits.{IsWithinLimits};
ghost use Rattle.mp_audit.specs.FlatCertificates.{certificate_of};
ghost use Rattle.mp_certificates.specs.declared.read.CertificateRefusal.TheVariants.{OutOfMemory as NoMemory};
ghost use Rattle.mp_certificates.specs.Accepted.{IsEntry, IsTextOf, Refuses, RefusesEntry};
ghost use Rattle.mp_certificates.specs.Text.{entries_text};

use crate::from_flat::from_flat;
use crate::lines::{cost, entry};
use crate::unread::Unread;
use mp_audit::{Certificate, FlatBounds, FlatCertificate, FlatLists};
use mp_list::OutOfMemory;
use mp_task::Task;
use std::alloc::Global;
use thiserror::Error;

/// Why a text was not read as a certificate.
#[derive(Clone, Copy, Debug, PartialEq, Eq, Error)]
pub enum CertificateRefusal {
    /// The line of this number, from 1, is the first that is not of its form, or that does not fit the team.
    #[error("line {0}")]
    Line(u64),
    /// No memory was left.
    #[error("out of memory")]
    OutOfMemory,
}

impl From<OutOfMemory> for CertificateRefusal {
    ghost from_gives = { λ _ e. e ≡ NoMemory };

    fn from(_e: OutOfMemory) -> CertificateRefusal {
        CertificateRefusal::OutOfMemory
    }
}

/// A task is within the limits of the program.
fn is_within_limits(task: &Task)
    ensures { IsWithinLimits task.now }
{
    let _ = &task.met;
}

/// All tasks are within the limits of the program.
fn are_within_limits(tasks: &[Task])
    ensures { All IsWithinLimits tasks.now }
{
    for task in tasks {
        is_within_limits(task);
    }
}

/// The entries of a certificate, from the second line of its text on.
fn entries(alloc: Global, tasks: &[Task], text: &[u8]) -> Result<FlatBounds, CertificateRefusal>
    requires few { length tasks.now ≤ 16 }
    requires limits { All IsWithinLimits tasks.now }
    requires short { 2 + length text.now < 2 ^ 64 }
    ensures text { IfOk result (λ bounds. text.now ≡ entries_text bounds.entries) }
    ensures fit { IfOk result (λ bounds. All (IsEntry tasks.now) bounds.entries) }
    ensures refused { IfErr result (λ e. RefusesEntry tasks.now text.now e) }
{
    let mut bounds = FlatBounds::new(alloc, tasks.len());
    let mut numbers = Vec::new(alloc);
    let mut lists = FlatLists::new(alloc);
    let mut rest = text;
    while !rest.is_empty() {
        match entry(tasks, rest, &mut numbers, &mut lists) {
            Ok((head, later)) => {
                let (agent, bound) = head;
                bounds = bounds.with(agent, bound, &lists)?;
                rest = later;
            }
            Err(Unread::OtherForm) => {
                return Err(CertificateRefusal::Line(bounds.len() as u64 + 2));
            }
            Err(Unread::OutOfMemory) => return Err(CertificateRefusal::OutOfMemory),
        }
    }
    Ok(bounds)
}

/// The certificate that a text has for the team of these tasks, in flat lists: a text of one, whose entries are of agents of
/// the team and fit it, in which each line ends with a line feed. `Line` comes exactly where there is no such certificate,
/// with the number of the first line that is not of its form, or that names an agent or facts which the team has not, a bound
/// that is not from 1 to 2^60, or a cost above 2^60.
pub fn read_flat(
    alloc: Global,
    text: &[u8],
    tasks: &[Task],
) -> Result<FlatCertificate, CertificateRefusal>
    requires { length tasks.now ≤ 16 }
    ensures found { IfOk result (λ certificate. IsTextOf tasks.now (certificate_of certificate) text.now) }
    ensures refused { IfErr result (λ e. Refuses tasks.now text.now e) }
{
    are_within_limits(tasks);
    let Some((cost, rest)) = cost(text) else {
        return Err(CertificateRefusal::Line(1));
    };
    match entries(alloc, tasks, rest) {
        Ok(bounds) => Ok(FlatCertificate { cost, bounds }),
        Err(refusal) => Err(refusal),
    }
}

/// The certificate that a text has for the team of these tasks, with lists of their own. It comes, and is refused, as by
/// `read_flat`.
pub fn read_certificate(
    alloc: Global,
    text: &[u8],
    tasks: &[Task],
) -> Result<Certificate, CertificateRefusal>
    requires { length tasks.now ≤ 16 }
    ensures found { IfOk result (λ certificate. IsTextOf tasks.now certificate text.now) }
    ensures refused { IfErr result (λ e. Refuses tasks.now text.now e) }
{
    match read_flat(alloc, text, tasks) {
        Ok(flat) => Ok(from_flat(alloc, &flat)?),
        Err(refusal) => Err(refusal),
    }
}
