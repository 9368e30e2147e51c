//! How large the grounded factor of an agent is.

ghost use Rattle.std.specs.Prelude.{IfErr, IfOk};
ghost use Rattle.mp_grounder.specs.Limits.{IsRefusedBy, IsWithin};

use mp_grounder::{Ground, GroundRefusal, ground};
use mp_lifting::OpenView;
use mp_list::OutOfMemory;
use mp_sets::Agent;
use mp_task::Act;
use mp_typing::CheckedFactor;
use std::alloc::Global;

/// How large the grounded factor of an agent is.
#[derive(Clone, Copy)]
pub struct GroundSize {
    /// The public facts and complements that its actions touch or its goals name.
    pub public_facts: usize,
    /// The private ones.
    pub private_facts: u32,
    /// Its actions that have public facts in them.
    pub public_actions: usize,
    /// Its other actions.
    pub private_actions: usize,
}

/// Whether an action has public facts in it.
fn is_public(act: &Act) -> bool {
    act.pre_pub.len() > 0 || act.add_pub.len() > 0 || act.del_pub.len() > 0
}

/// The number of actions that have public facts in them.
fn count_public(acts: &[Act]) -> usize {
    acts.iter().filter(|act| is_public(act)).count()
}

/// How large a grounded factor is.
fn size_of_ground(made: &Ground) -> GroundSize {
    let acts = made.acts.as_slice();
    let public_actions = count_public(acts);
    GroundSize {
        public_facts: made.publics.len(),
        private_facts: made.privates,
        public_actions,
        private_actions: acts.len().saturating_sub(public_actions),
    }
}

/// How large the factor of an agent is once it is grounded, where this is known of all agents, or why `maplan` refuses its
/// size. Refuses only for want of memory.
pub fn size_of_factor(
    alloc: Global,
    me: Agent,
    checked: &CheckedFactor,
    known: &OpenView,
) -> Result<Result<GroundSize, GroundRefusal>, OutOfMemory>
    ensures within { IfOk result (λ size. IfOk size
        (λ _. IsWithin (record { me = me; factor = checked.now; view = known.now }))) }
    ensures refused { IfOk result (λ size. IfErr size
        (IsRefusedBy (record { me = me; factor = checked.now; view = known.now }))) }
{
    match ground(alloc, me, checked, known) {
        Ok(made) => Ok(Ok(size_of_ground(&made))),
        Err(GroundRefusal::OutOfMemory) => Err(OutOfMemory),
        Err(refusal) => Ok(Err(refusal)),
    }
}
