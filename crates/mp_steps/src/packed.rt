//! The steps and the chain of actions, by what they met.

ghost use Rattle.std.specs.Prelude.{◌≡◌, length, IfOk};
ghost use Rattle.mp_steps.specs.Levels.{Test, levels};
ghost use Rattle.mp_steps.specs.Marks.{AreMet};
ghost use Rattle.mp_steps.specs.Steps.{steps as steps_of, chain as chain_of};

use crate::group::{StepLists, Times, grouped};
use crate::link::linked;
use crate::mark::Mark;
use mp_list::OutOfMemory;
use std::alloc::Global;

/// The times of the actions that may be done at the same time, step by step, and a chain through the steps.
#[derive(Drop)]
pub struct Packing {
    pub steps: StepLists,
    pub chain: Times,
}

/// The steps and the chain of actions, where these are the greatest levels of the earlier actions that interfere with them,
/// and the first such actions. Refuses only for want of memory.
pub fn packing_of(alloc: Global, mets: &[Mark]) -> Result<Packing, OutOfMemory>
    ensures steps { IfOk result (λ packed. (interfere : Test) → AreMet interfere mets.now
        → packed.steps ≡ steps_of (levels interfere (length mets.now)) (length mets.now)) }
    ensures chain { IfOk result (λ packed. (interfere : Test) → AreMet interfere mets.now
        → packed.chain ≡ chain_of interfere (levels interfere (length mets.now)) (length mets.now)) }
{
    let steps = grouped(alloc, mets)?;
    let chain = linked(alloc, mets, &steps)?;
    Ok(Packing { steps, chain })
}
