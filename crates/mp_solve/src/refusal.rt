//! Why a schedule is not replayed.

use mp_grounder::GroundRefusal;
use mp_list::OutOfMemory;
use thiserror::Error;

/// Why a schedule is not replayed.
#[derive(Clone, Copy, Debug, PartialEq, Eq, Error)]
pub enum ReplayRefusal {
    /// The factor of an agent is not grounded, the first such agent's, or no memory was left.
    #[error("not grounded")]
    Sizes(GroundRefusal),
    /// The line of this number, from 1, of the schedule's text: the first that is neither of an event nor of a message, or,
    /// where there is none, the line of the first event that may not happen.
    #[error("line {0}")]
    Line(u64),
}

impl From<OutOfMemory> for ReplayRefusal {
    ghost use Rattle.std.specs.Prelude.{◌≡◌};
    ghost use Rattle.mp_grounder.specs.declared.refusal.GroundRefusal.TheVariants as sizes;
    ghost use Rattle.mp_solve.specs.declared.refusal.ReplayRefusal.TheVariants as refusals;

    ghost from_gives = { λ _ e. e ≡ refusals.Sizes sizes.OutOfMemory };

    fn from(_e: OutOfMemory) -> ReplayRefusal {
        ReplayRefusal::Sizes(GroundRefusal::OutOfMemory)
    }
}
