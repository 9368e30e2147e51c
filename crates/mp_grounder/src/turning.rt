//! What a factor that is grounded in numbers becomes.

ghost use Rattle.std.specs.Prelude.{◌≡◌, ◌≤◌, length, map, IfOk};
ghost use Rattle.mp_ground_facts.specs.Ground.{ground_action, numbers_of};
ghost use Rattle.mp_ground_facts.specs.Touched.{goal_facts};
ghost use Rattle.mp_grounder.specs.Numbered.{act_at, act_with, ground_at, ground_factor_of, private_numbers, public_numbers, rising};

use crate::grounded::Ground;
use crate::names::FactNames;
use crate::places::{Places, private_places, public_places};
use crate::texts::publics_of;
use indexmap::IndexSet;
use mp_ground_facts::{ActionNumbers, Binding, GroundFact, goal_numbers};
use mp_lifted::{ActionBindingList, BoundAction, LiftedFactor};
use mp_list::{List, OutOfMemory};
use mp_sets::{Agent, FactList};
use mp_task::{Act, ActList};
use std::alloc::Global;

/// An action with these facts, by their places.
fn make_act(
    alloc: Global,
    scratch: &mut Vec<u32>,
    places: &Places,
    numbers: &ActionNumbers<'_>,
    cost: u64,
) -> Result<Act, OutOfMemory>
    ensures { IfOk result (λ act. act
        ≡ act_with places.now numbers.now.pre.numbers numbers.now.add.numbers numbers.now.del.numbers cost) }
{
    let pre = numbers.pre.as_slice();
    let add = numbers.add.as_slice();
    let del = numbers.del.as_slice();
    Ok(Act {
        pre_pub: public_places(alloc, scratch, places, pre)?,
        pre_priv: private_places(alloc, scratch, places, pre)?,
        add_pub: public_places(alloc, scratch, places, add)?,
        add_priv: private_places(alloc, scratch, places, add)?,
        del_pub: public_places(alloc, scratch, places, del)?,
        del_priv: private_places(alloc, scratch, places, del)?,
        cost,
    })
}

/// Instances with their facts by their places.
fn own_acts(
    alloc: Global,
    places: &Places,
    facts: &IndexSet<GroundFact>,
    factor: &LiftedFactor,
    instances: &ActionBindingList,
) -> Result<ActList, OutOfMemory>
    requires { length facts.now.keys ≤ 65535 }
    ensures { IfOk result (λ acts. acts
        ≡ map (act_at places.now) (map (ground_action factor.now facts.now.keys) instances.now)) }
{
    let mut scratch = Vec::new(alloc);
    let mut numbers = ActionNumbers::new(alloc, facts);
    let mut acts = List::with_capacity(alloc, instances.len())?;
    for at in 0..instances.len() {
        let BoundAction {
            action,
            objects,
            cost,
        } = instances.at(at);
        numbers.number(&mut scratch, Binding { factor, objects }, action)?;
        acts.push(make_act(alloc, &mut scratch, places, &numbers, cost)?)?;
    }
    Ok(acts)
}

/// What the goals ask for, by its places: the public facts, and the private ones.
fn goals_of(
    alloc: Global,
    places: &Places,
    facts: &IndexSet<GroundFact>,
    lifted: &LiftedFactor,
) -> Result<(FactList, FactList), OutOfMemory>
    requires { length facts.now.keys ≤ 65535 }
    ensures { IfOk result (λ goals. goals
        ≡ (
          rising (public_numbers places.now (numbers_of facts.now.keys (goal_facts lifted.now))),
          rising (private_numbers places.now (numbers_of facts.now.keys (goal_facts lifted.now))),
        )) }
{
    let numbers = goal_numbers(alloc, facts, lifted)?;
    let mut scratch = Vec::new(alloc);
    let publics = public_places(alloc, &mut scratch, places, numbers.as_slice())?;
    let privates = private_places(alloc, &mut scratch, places, numbers.as_slice())?;
    Ok((publics, privates))
}

/// A factor with its instances in numbers.
#[derive(Drop)]
pub struct NumberedFactor<'a> {
    pub factor: &'a LiftedFactor,
    /// The instances of its actions.
    pub instances: ActionBindingList,
    /// The facts that these touch or goals name, by their numbers.
    pub facts: IndexSet<GroundFact>,
    /// The numbers of those that are true at the start.
    pub start: List<u32>,
}

/// The start, goals and actions of a factor, with its facts by their places.
#[derive(Drop)]
struct Placed {
    start: FactList,
    goal_pub: FactList,
    goal_priv: FactList,
    acts: ActList,
}

/// The start, goals and actions of a factor with instances in numbers, by these places of its facts.
fn placed_by(
    alloc: Global,
    places: &Places,
    numbered: &NumberedFactor<'_>,
) -> Result<Placed, OutOfMemory>
    requires { length numbered.now.facts.keys ≤ 65535 }
    ensures start { IfOk result (λ made. made.start ≡ rising (private_numbers places.now numbered.now.start)) }
    ensures goal_pub { IfOk result (λ made. made.goal_pub
        ≡ rising (public_numbers places.now (numbers_of numbered.now.facts.keys (goal_facts numbered.now.factor.now)))) }
    ensures goal_priv { IfOk result (λ made. made.goal_priv
        ≡ rising (private_numbers places.now (numbers_of numbered.now.facts.keys (goal_facts numbered.now.factor.now)))) }
    ensures acts { IfOk result (λ made. made.acts ≡ map (act_at places.now)
        (map (ground_action numbered.now.factor.now numbered.now.facts.keys) numbered.now.instances)) }
{
    let mut scratch = Vec::new(alloc);
    let start = private_places(alloc, &mut scratch, places, numbered.start.as_slice())?;
    let (goal_pub, goal_priv) = goals_of(alloc, places, &numbered.facts, numbered.factor)?;
    Ok(Placed {
        start,
        goal_pub,
        goal_priv,
        acts: own_acts(
            alloc,
            places,
            &numbered.facts,
            numbered.factor,
            &numbered.instances,
        )?,
    })
}

/// The factor of an agent that is grounded in numbers, with its facts by their places.
#[tactic(auto, using(crate::proofs::Steps::instances_stay))]
pub fn turned(
    alloc: Global,
    me: Agent,
    names: &FactNames<'_>,
    numbered: NumberedFactor<'_>,
) -> Result<Ground, OutOfMemory>
    requires { length numbered.facts.keys ≤ 65535 }
    ensures { IfOk result (λ made. made ≡ ground_at me names.now (ground_factor_of numbered.entry)) }
{
    let publics = publics_of(alloc, names, numbered.facts.as_slice())?;
    let placed = placed_by(alloc, &publics.places, &numbered)?;
    Ok(Ground {
        me,
        privates: publics.places.privates,
        publics: publics.texts,
        start: placed.start,
        goal_pub: placed.goal_pub,
        goal_priv: placed.goal_priv,
        acts: placed.acts,
        steps: numbered.instances,
    })
}
