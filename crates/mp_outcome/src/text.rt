//! The text of what a team found.

ghost use Rattle.std.specs.Prelude.{◌≡◌, ◌≤◌, ◌++◌, ◌∷◌, [], List as ListOf, length, IfOk, OnOk};
ghost use Rattle.mp_joint.specs.declared.plan.PlanStep.{PlanStep};
ghost use Rattle.mp_trail.specs.declared.steps.Timed.{Timed as TimedOf};
ghost use Rattle.mp_text.specs.Outcome.{names_at, outcome_text as outcome_text_of, share_lines};
ghost use Rattle.mp_outcome.specs.Names.{names_of};
ghost use Rattle.mp_outcome.specs.Renumbered.{AreRenumbered};

use crate::named::{Named, named_share};
use mp_joint::Names;
use mp_lifted::ActionBindingList;
use mp_list::{List, OutOfMemory};
use mp_messages::{Bytes, Log};
use mp_sets::Agent;
use mp_text::outcome_text;
use mp_trail::{Share, Timed};
use mp_typing::CheckedFactor;
use mp_world::{Outcome, ShareList};
use std::alloc::Global;

/// The share of the agent at a place, by names: none where there is no such agent. Refuses only for want of memory.
fn named_at(
    alloc: Global,
    factors: &[CheckedFactor],
    steps: &[ActionBindingList],
    place: usize,
    share: &[Timed],
) -> Result<Named, OutOfMemory>
    requires { length factors.now ≤ 16 }
    ensures { IfOk result (λ named. share_lines named.names named.share
        ≡ share_lines (names_at (names_of factors.now steps.now) place) share.now) }
{
    let Some(factor) = factors.get(place) else {
        return Ok(Named::new(alloc));
    };
    let Some(own) = steps.get(place) else {
        return Ok(Named::new(alloc));
    };
    let Some(me) = Agent::new(place as u16 + 1) else {
        return Ok(Named::new(alloc));
    };
    named_share(alloc, factor, me, own, share)
}

/// The shares of all agents by names.
#[derive(Drop)]
struct NamedShares {
    names: Vec<Names>,
    shares: ShareList,
}

impl NamedShares {
    /// Adds the share of the next agent.
    fn add(&mut self, named: Named) -> Result<(), OutOfMemory>
        ensures { (own : ListOf (ListOf PlanStep)) (shares : ListOf (ListOf TimedOf)) (share : ListOf TimedOf)
            → AreRenumbered own shares self.old.names.items self.old.shares
            → share_lines named.names named.share ≡ share_lines (names_at own (length shares)) share
            → OnOk result (AreRenumbered own (shares ++ share ∷ []) self.new.names.items self.new.shares) }
    {
        let Named { names, share } = named;
        self.names.push(names)?;
        self.shares.push(share)
    }
}

/// The shares of all agents by names. Refuses only for want of memory.
fn named_shares(
    alloc: Global,
    factors: &[CheckedFactor],
    steps: &[ActionBindingList],
    shares: &[Share],
) -> Result<NamedShares, OutOfMemory>
    requires { length factors.now ≤ 16 }
    ensures { IfOk result (λ named. AreRenumbered (names_of factors.now steps.now) shares.now
        named.names.items named.shares) }
{
    let mut named = NamedShares {
        names: Vec::new(alloc),
        shares: List::new(alloc),
    };
    for (place, share) in shares.iter().enumerate() {
        named.add(named_at(alloc, factors, steps, place, share.as_slice())?)?;
    }
    Ok(named)
}

/// The text of what a team found, each agent's share of the plan by the names that the numbers of its own actions
/// stand for. Refuses only for want of memory, for which it also takes that an agent's share has more steps than there
/// are numbers of 32 bits.
pub fn named_text(
    alloc: Global,
    factors: &[CheckedFactor],
    steps: &[ActionBindingList],
    outcome: &Outcome,
    log: &Log,
) -> Result<Bytes, OutOfMemory>
    requires { length factors.now ≤ 16 }
    ensures { IfOk result (λ text. text ≡ outcome_text_of outcome.now (names_of factors.now steps.now) log.now) }
{
    let named = named_shares(alloc, factors, steps, outcome.shares.as_slice())?;
    let told = Outcome {
        answer: outcome.answer,
        shares: named.shares,
    };
    outcome_text(alloc, &told, named.names.as_slice(), log)
}
