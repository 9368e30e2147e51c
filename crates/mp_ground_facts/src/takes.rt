//! What takes facts one after another.

ghost use Rattle.std.specs.Prelude.{◌≡◌, OnOk};
ghost use Rattle.mp_ground_facts.specs.declared.fact.GroundFact.{GroundFact as FactOf};
ghost use Rattle.mp_ground_facts.specs.Keys.{fact_of_key};

use crate::key::FactKey;
use mp_list::OutOfMemory;

/// What takes facts and complements one after another.
pub trait TakesFacts {
    /// What it is after a fact or complement.
    ghost after: { Self → FactOf → Self };

    /// Takes a fact or complement. Refuses only for want of memory.
    fn take(&mut self, key: FactKey<'_>) -> Result<(), OutOfMemory>
        ensures { OnOk result (self.new ≡ after self.old (fact_of_key key.entry)) };
}
