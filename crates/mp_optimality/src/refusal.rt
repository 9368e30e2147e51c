//! Why a certificate and a plan are not audited.

use mp_grounder::GroundRefusal;
use mp_list::OutOfMemory;
use thiserror::Error;

/// Why a certificate and a plan are not audited.
#[derive(Clone, Copy, Debug, PartialEq, Eq, Error)]
pub enum AuditRefusal {
    /// The factor of an agent is not grounded, the first such agent's, or no memory was left.
    #[error("not grounded")]
    Sizes(GroundRefusal),
    /// The line of this number, from 1, of the certificate's text is the first that is not of its form, or does not fit the
    /// team.
    #[error("line {0} of the certificate")]
    Certificate(u64),
    /// The line of this number, from 1, of the plan's text is the first that is not of its form, or the line behind the last
    /// one is missing.
    #[error("line {0} of the plan")]
    Plan(u64),
}

impl From<OutOfMemory> for AuditRefusal {
    ghost use Rattle.std.specs.Prelude.{◌≡◌};
    ghost use Rattle.mp_grounder.specs.declared.refusal.GroundRefusal.TheVariants as sizes;
    ghost use Rattle.mp_optimality.specs.declared.refusal.AuditRefusal.TheVariants as refusals;

    ghost from_gives = { λ _ e. e ≡ refusals.Sizes sizes.OutOfMemory };

    fn from(_e: OutOfMemory) -> AuditRefusal {
        AuditRefusal::Sizes(GroundRefusal::OutOfMemory)
    }
}
