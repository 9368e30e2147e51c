//! What certifies for a team that no plan is cheaper, and what an audit of a certificate and a plan finds.

ghost use Rattle.std.specs.Prelude.{◌≡◌, ◌≤◌, ◌∷◌, [], length, IfOk, IfErr};
ghost use Rattle.mp_split.specs.Team.{IsFirstRefusal};
ghost use Rattle.mp_top.specs.Asked.Work.{audited as audited_work};
ghost use Rattle.mp_top.specs.Decided.{AuditsFor, CertifiesFor, IsRefusedTeam, IsToldByAudit, IsToldByCertificate, refusal_of_audit};
ghost use Rattle.mp_world.specs.Team.{most_expansions};

use crate::decision::{Decision, status_of_answer};
use crate::refusal::{FirstRefusal, Refusal};
use crate::status::Status;
use mp_grounder::GroundRefusal;
use mp_list::{List, OutOfMemory};
use mp_messages::Log;
use mp_optimality::{AuditRefusal, Certified, PlanAudit, audit_plan, certify};
use mp_solve::Solution;
use mp_typing::CheckedFactor;
use mp_world::Answer;
use std::alloc::Global;

/// What certifies an answer as a decision.
fn told_certified(alloc: Global, certified: Certified) -> Decision
    ensures { IsToldByCertificate certified result }
{
    let Certified { solution, text } = certified;
    let Solution {
        views,
        log,
        answer,
        text: _,
    } = solution;
    Decision {
        views,
        log,
        answer,
        before: List::new(alloc),
        text,
        status: status_of_answer(answer),
    }
}

/// The decision for a team that searches without a heuristic, and whose answer is certified.
pub(crate) fn certify_for(
    alloc: Global,
    team: &[CheckedFactor],
    limit: u64,
) -> Result<Decision, GroundRefusal>
    requires from_1 { 1 ≤ limit }
    requires limit { limit ≤ most_expansions }
    requires some { 1 ≤ length team.now }
    requires at_most { length team.now ≤ 16 }
    ensures outcome { IfOk result (CertifiesFor limit team.now) }
    ensures refused { IfErr result (IsFirstRefusal team.now) }
{
    match certify(alloc, team, limit) {
        Ok(certified) => Ok(told_certified(alloc, certified)),
        Err(refusal) => Err(refusal),
    }
}

/// What an audit finds as a decision, which leaves the report empty.
fn told_audit(alloc: Global, found: PlanAudit) -> Decision
    ensures { IsToldByAudit found result }
{
    let PlanAudit { optimal, text } = found;
    let status = if optimal { Status::Solved } else { Status::No };
    Decision {
        views: List::new(alloc),
        log: Log::new(alloc),
        answer: Answer::Nothing,
        before: List::new(alloc),
        text,
        status,
    }
}

/// What is said of a certificate and a plan that are not audited.
fn audit_refused(refusal: AuditRefusal) -> Refusal
    ensures { result ≡ refusal_of_audit refusal }
{
    match refusal {
        AuditRefusal::Sizes(refusal) => Refusal::Sizes(refusal),
        AuditRefusal::Certificate(number) => Refusal::First(0, FirstRefusal::Line(number)),
        AuditRefusal::Plan(number) => Refusal::First(1, FirstRefusal::Line(number)),
    }
}

/// What an audit of the certificate and the plan of two texts finds for a team, as a decision.
pub(crate) fn audit_for(
    alloc: Global,
    team: &[CheckedFactor],
    certificate: &[u8],
    plan: &[u8],
) -> Result<Decision, Refusal>
    requires some { 1 ≤ length team.now }
    requires at_most { length team.now ≤ 16 }
    requires short { length plan.now ≤ 4194304 }
    ensures outcome { IfOk result (AuditsFor certificate.now plan.now team.now) }
    ensures refused { IfErr result (IsRefusedTeam audited_work team.now (certificate.now ∷ plan.now ∷ [])) }
{
    match audit_plan(alloc, team, certificate, plan) {
        Ok(found) => Ok(told_audit(alloc, found)),
        Err(refusal) => Err(audit_refused(refusal)),
    }
}
