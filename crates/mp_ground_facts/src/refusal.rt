//! Why facts are not numbered.

use mp_list::OutOfMemory;
use thiserror::Error;

/// Why facts are not numbered.
#[derive(Clone, Copy, Debug, PartialEq, Eq, Error)]
pub enum FactRefusal {
    /// There are more than 65,535 facts and complements: so many.
    #[error("{0} facts")]
    TooManyFacts(u64),
    /// No memory was left.
    #[error("out of memory")]
    OutOfMemory,
}

impl From<OutOfMemory> for FactRefusal {
    ghost use Rattle.std.specs.Prelude.{◌≡◌};
    ghost use Rattle.mp_ground_facts.specs.declared.refusal.FactRefusal.TheVariants as refusals;

    ghost from_gives = { λ _ e. e ≡ refusals.OutOfMemory };

    fn from(_e: OutOfMemory) -> FactRefusal {
        FactRefusal::OutOfMemory
    }
}
