//! Numbering the facts of a factor.

ghost use Rattle.std.specs.Prelude.{◌≡◌, ◌<◌, ◌≤◌, length, IfOk, Err, ℕ};
ghost use Rattle.mp_typing.specs.Places.{numbers_where};
ghost use Rattle.mp_ground_facts.specs.Facts.{is_initial};
ghost use Rattle.mp_ground_facts.specs.Touched.{goal_facts};
ghost use Rattle.mp_ground_facts.specs.Ground.{facts_of};
ghost use Rattle.mp_ground_facts.specs.Numbers.{numbered};

use crate::fact::GroundFact;
use crate::handing::hand_goals;
use crate::numbers::FactNumbers;
use crate::refusal::FactRefusal;
use crate::touched::sorted_facts;
use indexmap::IndexSet;
use mp_lifted::{ActionBindingList, LiftedFactor, StartFacts};
use mp_list::{List, OutOfMemory};
use std::alloc::Global;

/// The most facts and complements that a factor may have.
const MAX_FACTS: usize = 65_535;

/// The numbers of what the goals ask for.
#[tactic(auto, using(crate::proofs::NumberedAll::number_steps))]
pub fn goal_numbers<'a>(
    alloc: Global,
    facts: &'a IndexSet<GroundFact>,
    factor: &LiftedFactor,
) -> Result<FactNumbers<'a>, OutOfMemory>
    requires { length facts.now.keys ≤ 65535 }
    ensures { IfOk result (λ out. out ≡ numbered facts.now.keys (goal_facts factor.now)) }
{
    let mut out = FactNumbers::new(alloc, facts);
    hand_goals(&mut out, factor)?;
    Ok(out)
}

/// Whether a fact or a complement is true at the start.
fn is_start_fact(start: &StartFacts<'_>, fact: &GroundFact) -> bool
    ensures { result ≡ is_initial start.now fact.now }
{
    let is_true = start.is_true(fact.predicate, fact.objects.as_slice());
    if fact.is_complement {
        !is_true
    } else {
        is_true
    }
}

/// The numbers of the facts and complements that are true at the start.
pub fn start_numbers(
    alloc: Global,
    start: &StartFacts<'_>,
    facts: &[GroundFact],
) -> Result<List<u32>, OutOfMemory>
    requires { length facts.now ≤ 65535 }
    ensures { IfOk result (λ out. out ≡ numbers_where 0 (is_initial start.now) facts.now) }
{
    let mut out = List::new(alloc);
    let mut number: u32 = 0;
    for fact in facts {
        if is_start_fact(start, fact) {
            out.push(number)?;
        }
        number += 1;
    }
    Ok(out)
}

/// The facts and complements that these instances touch or goals name, each once, in their order:
/// their places are their numbers. Refuses where there are more than 65,535, with their number.
pub fn numbered_facts(
    alloc: Global,
    factor: &LiftedFactor,
    instances: &ActionBindingList,
) -> Result<IndexSet<GroundFact>, FactRefusal>
    ensures given { IfOk result (λ facts. facts.keys ≡ facts_of factor.now instances.now) }
    ensures within { IfOk result (λ facts. length facts.keys ≤ 65535) }
    ensures facts { (n : ℕ) → result ≡ Err (FactRefusal.TooManyFacts n)
        → (n ≡ length (facts_of factor.now instances.now)) × (65535 < n) }
{
    let facts = sorted_facts(alloc, factor, instances)?;
    let count = facts.len();
    if count > MAX_FACTS {
        return Err(FactRefusal::TooManyFacts(count as u64));
    }
    Ok(facts)
}
