//! All facts that instances touch and goals name, in their order.

ghost use Rattle.std.specs.Prelude.{◌≡◌, [], IfOk, OnOk};
ghost use Rattle.std.specs.List.{flat_map};
ghost use Rattle.indexmap.specs.IndexSet.{insert_key, insert_all};
ghost use Rattle.mp_ground_facts.specs.Facts.{same_fact};
ghost use Rattle.mp_ground_facts.specs.Touched.{touched, of_action, of_place, counted};
ghost use Rattle.mp_ground_facts.specs.Ground.{facts_of};

use crate::fact::GroundFact;
use crate::handing::{Binding, hand_added, hand_deleted, hand_goals, hand_needed};
use crate::key::FactKey;
use crate::takes::TakesFacts;
use indexmap::IndexSet;
use mp_lifted::{ActionBindingList, LiftedFactor};
use mp_list::{List, OutOfMemory};
use std::alloc::Global;
use std::marker::Model;

/// Facts, each once, in the order in which they were met. Contracts see them as their list.
#[derive(Drop)]
struct Met {
    facts: IndexSet<GroundFact>,
}

impl Model for Met {
    ghost use Rattle.std.specs.Prelude.{List};
    ghost use Rattle.mp_ground_facts.specs.declared.fact.GroundFact.{GroundFact};

    ghost Value = { List GroundFact };

    ghost view = { λ m. m.facts.keys };
}

/// These objects as a list.
fn list_of(alloc: Global, objects: &[u32]) -> Result<List<u32>, OutOfMemory>
    ensures { IfOk result (λ list. list ≡ objects.now) }
{
    let mut list = List::with_capacity(alloc, objects.len())?;
    for object in objects {
        list.push(*object)?;
    }
    Ok(list)
}

impl TakesFacts for Met {
    ghost after = { λ facts fact. insert_key same_fact facts fact };

    fn take(&mut self, key: FactKey<'_>) -> Result<(), OutOfMemory> {
        if self.facts.contains(key) {
            return Ok(());
        }
        let objects = list_of(*self.facts.allocator(), key.objects)?;
        self.facts.insert(GroundFact {
            is_public: key.is_public,
            is_complement: key.is_complement,
            predicate: key.predicate,
            objects,
        })?;
        Ok(())
    }
}

/// Adds what the action at a place touches with these objects.
#[tactic(auto, using(crate::proofs::Steps::fold_steps))]
fn touch_place(
    met: &mut Met,
    scratch: &mut Vec<u32>,
    binding: Binding<'_>,
    action: usize,
) -> Result<(), OutOfMemory>
    ensures { OnOk result (met.new ≡ insert_all same_fact met.old
        (of_place binding.entry.factor.now touched action binding.entry.objects.now)) }
{
    let Some(lifted) = binding.factor.actions.get(action) else {
        return Ok(());
    };
    hand_needed(met, scratch, binding, lifted)?;
    hand_added(met, scratch, binding, lifted)?;
    hand_deleted(met, scratch, binding, lifted)
}

/// Adds what instances touch.
#[tactic(auto, using(crate::proofs::Steps::fold_steps))]
fn touch_instances(
    met: &mut Met,
    scratch: &mut Vec<u32>,
    factor: &LiftedFactor,
    instances: &ActionBindingList,
) -> Result<(), OutOfMemory>
    ensures { OnOk result (met.new ≡ insert_all same_fact met.old
        (flat_map (of_action factor.now touched) instances.now)) }
{
    for at in 0..instances.len() {
        let instance = instances.at(at);
        let objects = instance.objects;
        touch_place(met, scratch, Binding { factor, objects }, instance.action)?;
    }
    Ok(())
}

/// What instances touch or goals name, each once, in the order in which it is met.
#[tactic(auto, using(crate::proofs::Steps::fold_steps))]
fn counted_facts(
    alloc: Global,
    factor: &LiftedFactor,
    instances: &ActionBindingList,
) -> Result<IndexSet<GroundFact>, OutOfMemory>
    ensures { IfOk result (λ facts. facts.keys
        ≡ insert_all same_fact [] (counted factor.now instances.now)) }
{
    let mut met = Met {
        facts: IndexSet::new(alloc),
    };
    let mut scratch = Vec::new(alloc);
    touch_instances(&mut met, &mut scratch, factor, instances)?;
    hand_goals(&mut met, factor)?;
    Ok(met.facts)
}

/// What instances touch or goals name, each once, in the order of facts.
pub fn sorted_facts(
    alloc: Global,
    factor: &LiftedFactor,
    instances: &ActionBindingList,
) -> Result<IndexSet<GroundFact>, OutOfMemory>
    ensures { IfOk result (λ facts. facts.keys ≡ facts_of factor.now instances.now) }
{
    let mut facts = counted_facts(alloc, factor, instances)?;
    facts.sort_unstable()?;
    Ok(facts)
}
