//! Grounding the factor of an agent.

ghost use Rattle.std.specs.Prelude.{◌≡◌, ◌≤◌, length, IfOk, IfErr};
ghost use Rattle.mp_instances.specs.Costs.{HasSmallCosts};
ghost use Rattle.mp_instances.specs.Counts.{tries};
ghost use Rattle.mp_instances.specs.Instances.{instances as instances_of};
ghost use Rattle.mp_ground_facts.specs.Ground.{facts_of, ground_factor};
ghost use Rattle.mp_grounder.specs.Grounded.{IsGrounded};
ghost use Rattle.mp_grounder.specs.Limits.{IsRefusedBy, IsWithin, KeepsLimits};
ghost use Rattle.mp_grounder.specs.Numbered.{ground_factor_of};
ghost use Rattle.mp_grounder.specs.Refusals.{IsRefusedAt};

use crate::grounded::Ground;
use crate::names::name_facts;
use crate::refusal::GroundRefusal;
use crate::turning::{NumberedFactor, turned};
use indexmap::IndexSet;
use mp_ground_facts::{FactRefusal, GroundFact, numbered_facts, start_numbers};
use mp_ground_laws::laws::checked_factor_is_checked;
use mp_instances::{InstanceRefusal, instances};
use mp_lifted::{ActionBindingList, StartFacts};
use mp_lifting::{OpenView, lift};
use mp_sets::Agent;
use mp_typing::CheckedFactor;
use std::alloc::Global;

/// The instances of an agent's factor.
fn all_instances(
    alloc: Global,
    me: Agent,
    start: &StartFacts<'_>,
) -> Result<ActionBindingList, GroundRefusal>
    requires { HasSmallCosts start.now }
    ensures given { IfOk result (λ list. list ≡ instances_of start.now) }
    ensures within { IfOk result (λ list. (tries start.now ≤ 50000000) × (length list ≤ 200000)) }
    ensures refused { IfErr result (IsRefusedAt me (tries start.now) (length (instances_of start.now))
        (length (facts_of start.now (instances_of start.now)))) }
{
    match instances(alloc, start) {
        Ok(list) => Ok(list),
        Err(InstanceRefusal::TooManyTries) => Err(GroundRefusal::TooManyTries(me)),
        Err(InstanceRefusal::TooManyActions(n)) => Err(GroundRefusal::TooManyActions(me, n)),
        Err(InstanceRefusal::OutOfMemory) => Err(GroundRefusal::OutOfMemory),
    }
}

/// The facts of an agent's factor, with numbers.
fn all_facts(
    alloc: Global,
    me: Agent,
    start: &StartFacts<'_>,
    list: &ActionBindingList,
) -> Result<IndexSet<GroundFact>, GroundRefusal>
    requires tries { tries start.now ≤ 50000000 }
    requires all { list.now ≡ instances_of start.now }
    requires few { length list.now ≤ 200000 }
    ensures given { IfOk result (λ facts. facts.keys ≡ facts_of start.now (instances_of start.now)) }
    ensures within { IfOk result (λ facts. length facts.keys ≤ 65535) }
    ensures refused { IfErr result (IsRefusedAt me (tries start.now) (length (instances_of start.now))
        (length (facts_of start.now (instances_of start.now)))) }
{
    match numbered_facts(alloc, start.factor(), list) {
        Ok(facts) => Ok(facts),
        Err(FactRefusal::TooManyFacts(n)) => Err(GroundRefusal::TooManyFacts(me, n)),
        Err(FactRefusal::OutOfMemory) => Err(GroundRefusal::OutOfMemory),
    }
}

/// The factor of an agent with its instances in numbers. The set of what is true at the start is let go here: the own actions,
/// which are made next, take the most memory.
fn numbered<'a>(
    alloc: Global,
    me: Agent,
    start: StartFacts<'a>,
) -> Result<NumberedFactor<'a>, GroundRefusal>
    requires { HasSmallCosts start }
    ensures given { IfOk result (λ n. ground_factor_of n ≡ ground_factor start.entry (instances_of start.entry)) }
    ensures few_tries { IfOk result (λ n. tries start.entry ≤ 50000000) }
    ensures few_actions { IfOk result (λ n. length (instances_of start.entry) ≤ 200000) }
    ensures few_facts { IfOk result (λ n. length n.facts.keys ≤ 65535) }
    ensures refused { IfErr result (IsRefusedAt me (tries start.entry) (length (instances_of start.entry))
        (length (facts_of start.entry (instances_of start.entry)))) }
{
    let instances = all_instances(alloc, me, &start)?;
    let facts = all_facts(alloc, me, &start, &instances)?;
    let numbers = start_numbers(alloc, &start, facts.as_slice())?;
    Ok(NumberedFactor {
        factor: start.factor(),
        instances,
        facts,
        start: numbers,
    })
}

/// Grounds the factor of an agent that has seen this of all agents. Refuses where more than 50,000,000 bindings are tried,
/// then where there are more than 200,000 actions, then where there are more than 65,535 facts and complements, and for
/// want of memory.
pub fn ground(
    alloc: Global,
    me: Agent,
    factor: &CheckedFactor,
    known: &OpenView,
) -> Result<Ground, GroundRefusal>
    ensures given { IfOk result (IsGrounded (record { me = me; factor = factor.now; view = known.now })) }
    ensures limits { IfOk result KeepsLimits }
    ensures within { IfOk result (λ g. IsWithin (record { me = me; factor = factor.now; view = known.now })) }
    ensures refused { IfErr result (IsRefusedBy (record { me = me; factor = factor.now; view = known.now })) }
{
    checked_factor_is_checked(factor);
    let lifted = lift(alloc, factor, known)?;
    let start = StartFacts::new(alloc, &lifted)?;
    let in_numbers = numbered(alloc, me, start)?;
    let names = name_facts(alloc, factor.factor(), lifted.private_objects.len())?;
    Ok(turned(alloc, me, &names, in_numbers)?)
}
