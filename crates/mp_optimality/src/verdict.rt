//! What the verdicts on a plan and on a certificate mean together.

ghost use Rattle.std.specs.Prelude.{◌≡◌};
ghost use Rattle.mp_optimality.specs.Told.{is_shown as is_shown_by, is_valid as is_valid_of};

use mp_audit::AuditVerdict;
use mp_checker::CheckVerdict;

/// Whether a plan solves, at the cost that its text states.
pub fn is_valid(found: &CheckVerdict, stated: u64) -> bool
    ensures { result ≡ is_valid_of found.now stated }
{
    match found {
        CheckVerdict::Valid(cost) => *cost == stated,
        CheckVerdict::NoAction(_) => false,
        CheckVerdict::Missing(_, _) => false,
        CheckVerdict::Forbidden(_, _) => false,
        CheckVerdict::GoalMissing(_) => false,
        CheckVerdict::GoalForbidden(_) => false,
    }
}

/// Whether an audit shows that no plan is cheaper than this cost.
pub(crate) fn is_shown(verdict: &AuditVerdict, bound: u64, cost: u64) -> bool
    ensures { result ≡ is_shown_by verdict.now bound cost }
{
    match verdict {
        AuditVerdict::Holds => bound == cost,
        AuditVerdict::Double(_) => false,
        AuditVerdict::Start(_) => false,
        AuditVerdict::Goal(_) => false,
        AuditVerdict::Step { .. } => false,
    }
}
