//! Why a factor is not grounded.

use mp_list::OutOfMemory;
use mp_sets::Agent;
use thiserror::Error;

/// Why the factor of an agent is not grounded. Where several hold, the first of these is answered.
#[derive(Clone, Copy, Debug, PartialEq, Eq, Error)]
pub enum GroundRefusal {
    /// More than 50,000,000 bindings are tried.
    #[error("agent {0:?}: G3 tries")]
    TooManyTries(Agent),
    /// There are more than 200,000 ground actions: so many.
    #[error("agent {0:?}: G2 actions")]
    TooManyActions(Agent, u64),
    /// There are more than 65,535 facts and complements that an action touches or a goal names: so many.
    #[error("agent {0:?}: G1 facts")]
    TooManyFacts(Agent, u64),
    /// No memory was left.
    #[error("out of memory")]
    OutOfMemory,
}

impl From<OutOfMemory> for GroundRefusal {
    ghost use Rattle.std.specs.Prelude.{◌≡◌};
    ghost use Rattle.mp_grounder.specs.declared.refusal.GroundRefusal.TheVariants as refusals;

    ghost from_gives = { λ _ e. e ≡ refusals.OutOfMemory };

    fn from(_e: OutOfMemory) -> GroundRefusal {
        GroundRefusal::OutOfMemory
    }
}
