//! The steps of a plan by names, and its shares with numbers that stand for these.

ghost use Rattle.std.specs.Prelude.{◌≡◌, ◌++◌, ◌∷◌, [], List as ListOf, map, IfOk, OnOk};
ghost use Rattle.mp_ground_laws.specs.Named.{step_of};
ghost use Rattle.mp_outcome.specs.Renumbered.{IsRenumbered};
ghost use Rattle.mp_trail.specs.declared.steps.Timed.{Timed as TimedOf};

use mp_grounder::StepNames;
use mp_joint::Names;
use mp_lifted::ActionBindingList;
use mp_list::{List, OutOfMemory, to_u32};
use mp_sets::Agent;
use mp_trail::{Share, Timed};
use mp_typing::CheckedFactor;
use std::alloc::Global;

/// The steps of an agent's share of a plan by names, and the share with their places as numbers. So only the steps of
/// the plan get names, and not all that an agent could take.
#[derive(Drop)]
pub(crate) struct Named {
    pub(crate) names: Names,
    pub(crate) share: Share,
}

impl Named {
    /// Nothing yet.
    pub(crate) fn new(alloc: Global) -> Named
        ensures names { result.names ≡ [] }
        ensures share { result.share ≡ [] }
    {
        Named {
            names: List::new(alloc),
            share: List::new(alloc),
        }
    }

    /// Adds an action of the agent at its time, where its number stands for a step. That there are more steps than
    /// numbers of 32 bits is taken for want of memory.
    fn add(
        &mut self,
        alloc: Global,
        told: &StepNames<'_>,
        me: Agent,
        steps: &ActionBindingList,
        timed: Timed,
    ) -> Result<(), OutOfMemory>
        ensures { (share : ListOf TimedOf)
            → IsRenumbered (map (step_of me told.now) steps.now) share self.old.names self.old.share
            → OnOk result (IsRenumbered (map (step_of me told.now) steps.now) (share ++ timed ∷ [])
            self.new.names self.new.share) }
    {
        let Some(step) = steps.get(timed.action as usize) else {
            return Ok(());
        };
        let action = to_u32(self.names.len())?;
        self.names.push(told.step(alloc, me, step)?)?;
        self.share.push(Timed {
            time: timed.time,
            action,
        })
    }
}

/// An agent's share of a plan by names. No object is looked at where the share is empty. Refuses only for want of memory.
pub(crate) fn named_share(
    alloc: Global,
    factor: &CheckedFactor,
    me: Agent,
    steps: &ActionBindingList,
    share: &[Timed],
) -> Result<Named, OutOfMemory>
    ensures { IfOk result (λ named. IsRenumbered (map (step_of me factor.now) steps.now) share.now
        named.names named.share) }
{
    let mut named = Named::new(alloc);
    if share.is_empty() {
        return Ok(named);
    }
    let told = StepNames::new(alloc, factor)?;
    for timed in share {
        named.add(alloc, &told, me, steps, *timed)?;
    }
    Ok(named)
}
