//! The certificate and the plan of texts.

ghost use Rattle.std.specs.Prelude.{◌≡◌, ◌≤◌, Err, IfErr, IfOk, Ok, length};
ghost use Rattle.mp_audit.specs.FlatCertificates.{certificate_of};
ghost use Rattle.mp_certificates.specs.Accepted.{IsTextOf};
ghost use Rattle.mp_plans.specs.Plan.{plan_in};
ghost use Rattle.mp_optimality.specs.Reading.{IsCertificateUnread, IsPlanUnread};

use crate::refusal::AuditRefusal;
use mp_audit::FlatCertificate;
use mp_certificates::{CertificateRefusal, read_flat};
use mp_grounder::GroundRefusal;
use mp_plans::{PlanText, read_plan};
use mp_task::Task;
use mp_text::LineRefusal;
use std::alloc::Global;

/// The certificate of a text, which fits these tasks.
pub(crate) fn certificate_in(
    alloc: Global,
    text: &[u8],
    tasks: &[Task],
) -> Result<FlatCertificate, AuditRefusal>
    requires { length tasks.now ≤ 16 }
    ensures found { IfOk result (λ certificate. IsTextOf tasks.now (certificate_of certificate) text.now) }
    ensures refused { IfErr result (IsCertificateUnread tasks.now text.now) }
{
    match read_flat(alloc, text, tasks) {
        Ok(certificate) => Ok(certificate),
        Err(CertificateRefusal::Line(number)) => Err(AuditRefusal::Certificate(number)),
        Err(CertificateRefusal::OutOfMemory) => Err(AuditRefusal::Sizes(
            GroundRefusal::OutOfMemory,
        )),
    }
}

/// The plan of a text, for a team of so many agents.
pub(crate) fn plan_of(alloc: Global, text: &[u8], agents: u16) -> Result<PlanText, AuditRefusal>
    requires { agents ≤ 16 }
    ensures found { IfOk result (λ plan. plan_in agents text.now ≡ Ok plan) }
    ensures refused { IfErr result (IsPlanUnread agents text.now) }
{
    match read_plan(alloc, text, agents) {
        Ok(plan) => Ok(plan),
        Err(LineRefusal::Line(number)) => Err(AuditRefusal::Plan(number)),
        Err(LineRefusal::OutOfMemory) => Err(AuditRefusal::Sizes(GroundRefusal::OutOfMemory)),
    }
}
