//! The audit of a certificate and a plan for the files of a team.

ghost use Rattle.std.specs.Prelude.{◌≡◌, ◌≤◌, Ok, IfOk, IfErr, false, length};
ghost use Rattle.mp_audit.specs.Failures.{verdict_on};
ghost use Rattle.mp_audit.specs.Fits.{IsCertificateFor};
ghost use Rattle.mp_audit.specs.FlatCertificates.{certificate_of};
ghost use Rattle.mp_plan_verdict.specs.Verdict.{verdict};
ghost use Rattle.mp_plans.specs.Verdict.{verdict_text as verdict_text_of};
ghost use Rattle.mp_text.specs.Lines.{Text};
ghost use Rattle.mp_optimality.specs.Audits.{IsAudited, IsRefusedAudit, Tells};
ghost use Rattle.mp_optimality.specs.Told.{audit_text as audit_text_of, is_shown as is_shown_by};

use crate::reading::{certificate_in, plan_of};
use crate::refusal::AuditRefusal;
use crate::told::audit_text;
use crate::verdict::{is_shown, is_valid};
use mp_audit::{
    AuditVerdict, FlatCertificate, audit_flat, failures_are_what_is_wrong, no_plan_is_cheaper,
};
use mp_checker::{CheckVerdict, check};
use mp_ground_laws::laws::checked_factors_are_checked;
use mp_list::OutOfMemory;
use mp_messages::Bytes;
use mp_plan_verdict::verdicts_are_right;
use mp_plans::{PlanText, verdict_text};
use mp_split::tasks;
use mp_stands::tasks::tasks_stand_for_files;
use mp_task::Task;
use mp_typing::CheckedFactor;
use std::alloc::Global;

/// What an audit of a certificate and a plan finds.
#[derive(Drop)]
pub struct PlanAudit {
    /// Whether the plan solves at the cost that it states, and the certificate shows that no plan costs less.
    pub optimal: bool,
    /// The line that tells it.
    pub text: Bytes,
}

/// What is told of a plan that is not valid at the cost that its text states.
fn told_invalid(alloc: Global, found: &CheckVerdict, stated: u64) -> Result<PlanAudit, OutOfMemory>
    ensures text { IfOk result (λ a. a.text ≡ verdict_text_of found.now stated) }
    ensures optimal { IfOk result (λ a. a.optimal ≡ false) }
{
    Ok(PlanAudit {
        optimal: false,
        text: verdict_text(alloc, found, stated)?,
    })
}

/// What is told of a certificate with this bound, where the plan is valid at this cost.
fn told_of_audit(
    alloc: Global,
    verdict: &AuditVerdict,
    bound: u64,
    cost: u64,
) -> Result<PlanAudit, OutOfMemory>
    ensures text { IfOk result (λ a. a.text ≡ audit_text_of verdict.now bound cost) }
    ensures optimal { IfOk result (λ a. a.optimal ≡ is_shown_by verdict.now bound cost) }
{
    Ok(PlanAudit {
        optimal: is_shown(verdict, bound, cost),
        text: audit_text(alloc, verdict, bound, cost)?,
    })
}

/// What is found of a certificate and a plan that were read. The certificate is audited only where the plan is valid.
fn audited(
    alloc: Global,
    factors: &[CheckedFactor],
    tasks: &[Task],
    certificate: &FlatCertificate,
    plan: &PlanText,
) -> Result<PlanAudit, OutOfMemory>
    requires some { 1 ≤ length factors.now }
    requires at_most { length factors.now ≤ 16 }
    requires short { length plan.now.plan ≤ 4194304 }
    requires certificate { IsCertificateFor tasks.now (certificate_of certificate.now) }
    ensures { IfOk result (Tells (verdict factors.now plan.now.plan)
        (verdict_on tasks.now (certificate_of certificate.now)) certificate.now.cost plan.now.cost) }
{
    let found = check(alloc, factors, &plan.plan)?;
    if !is_valid(&found, plan.cost) {
        return told_invalid(alloc, &found, plan.cost);
    }
    let verdict = audit_flat(alloc, tasks, certificate)?;
    told_of_audit(alloc, &verdict, certificate.cost, plan.cost)
}

/// What an audit of the certificate and the plan of two texts finds for a team of 1 to 16 agents: what is wrong with the plan
/// at the cost that it states, or what is wrong first with the certificate, or its bound where that is not the plan's cost, or
/// that the plan is optimal. Then no plan that solves the united problem of the files costs less. A plan's text has at most
/// 4,194,304 bytes.
///
/// It refuses where a factor is not grounded, as the first of the agents with such a factor does; otherwise with the first line
/// of the certificate's text that is not of its form, or does not fit the team; otherwise with the first line of the plan's
/// text that is not of its form; and for want of memory.
#[tactic(auto, using(mp_split::proofs::FirstAgents::no_memory))]
pub fn audit_plan(
    alloc: Global,
    factors: &[CheckedFactor],
    certificate_text: &[u8],
    plan_text: &[u8],
) -> Result<PlanAudit, AuditRefusal>
    requires some { 1 ≤ length factors.now }
    requires at_most { length factors.now ≤ 16 }
    requires short { length plan_text.now ≤ 4194304 }
    ensures audited { IfOk result (IsAudited factors.now certificate_text.now plan_text.now) }
    ensures refused { IfErr result (IsRefusedAudit factors.now certificate_text.now plan_text.now) }
{
    let given = match tasks(alloc, factors) {
        Ok(given) => given,
        Err(refusal) => return Err(AuditRefusal::Sizes(refusal)),
    };
    checked_factors_are_checked(factors);
    tasks_stand_for_files();
    verdicts_are_right();
    no_plan_is_cheaper();
    failures_are_what_is_wrong();
    let certificate = match certificate_in(alloc, certificate_text, given.tasks.as_slice()) {
        Ok(certificate) => certificate,
        Err(refusal) => return Err(refusal),
    };
    let plan = match plan_of(alloc, plan_text, factors.len() as u16) {
        Ok(plan) => plan,
        Err(refusal) => return Err(refusal),
    };
    Ok(audited(alloc, factors, given.tasks.as_slice(), &certificate, &plan)?)
}
