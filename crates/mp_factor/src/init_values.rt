//! Facts and values at the start.

ghost use Rattle.std.specs.Prelude.{◌≡◌, IfOk, OnOk};
ghost use Rattle.mp_sexp.specs.Node.{node_of, nodes_in};
ghost use Rattle.mp_forms.specs.Reading.{besides, both, nothing_more};
ghost use Rattle.mp_factor.specs.Found.{found_in, both_found};
ghost use Rattle.mp_factor.specs.FoundForms.{started};
ghost use Rattle.mp_forms.specs.Parts.{place_of};
ghost use Rattle.mp_forms.specs.Rules.Words.{name_rule};
ghost use Rattle.mp_forms.specs.Rules.Costs.{cost_rule};
ghost use Rattle.mp_forms.specs.Rules.Atoms.{object_rule, applied_rule};
ghost use Rattle.mp_forms.specs.Rules.Init.{gives, fact_rule, init_rule};

use crate::atom_values::{Applied, AtomForm, ObjectForm};
use crate::effect_values::CostForm;
use crate::first_costs::check_given;
use crate::found::{Form, Found, expect_end, pair, second, shape_fault};
use crate::trees::{has_head, members, place};
use crate::word::NameForm;
use mp_forms::{Fact, Start, Value};
use mp_list::{List, OutOfMemory};
use mp_sexp::Tree;
use std::alloc::Global;
use std::collections::HashMap;

/// The value of a function. Refuses only for want of memory.
#[tactic(auto, using(crate::proofs::FoundLemmas::found_both, crate::proofs::FoundLemmas::pair_said))]
fn read_value(
    alloc: Global,
    function: &Tree,
    number: &Tree,
    extra: &[Tree],
) -> Result<Found<Fact>, OutOfMemory>
    ensures { IfOk result (λ found. found ≡ found_in (besides (nothing_more (nodes_in extra.now))
        (both (gives (place_of (node_of number.now))) (applied_rule name_rule object_rule (node_of function.now))
        (cost_rule (node_of number.now))))) }
{
    let form = Applied {
        name: NameForm,
        term: ObjectForm,
    };
    let of = form.read(alloc, function)?;
    let at = place(number);
    let value = pair(of, CostForm.read(alloc, number)?);
    let fact = value.map(|(of, cost)| Fact::Gives(Value { of, cost }, at));
    Ok(second(expect_end(alloc, extra), fact))
}

/// An atom, or the value of a function. Refuses only for want of memory.
#[tactic(auto, using(crate::proofs::FoundLemmas::found_said), unfolding(mp_forms::specs::Rules::Init::fact_rule))]
fn read_fact(alloc: Global, tree: &Tree) -> Result<Found<Fact>, OutOfMemory>
    ensures { IfOk result (λ found. found ≡ found_in (fact_rule (node_of tree.now))) }
{
    if !has_head(tree, b"=") {
        return Ok(AtomForm.read(alloc, tree)?.map(|atom| Fact::Holds(atom)));
    }
    match members(tree) {
        [_, function, number, extra @ ..] => read_value(alloc, function, number, extra),
        _ => Ok(shape_fault(alloc, place(tree))),
    }
}

/// Adds what a member says. Refuses only for want of memory.
fn add_fact(start: &mut Start, fact: Fact) -> Result<(), OutOfMemory>
    ensures { OnOk result (start.new ≡ started start.old fact) }
{
    match fact {
        Fact::Holds(atom) => start.facts.push(atom),
        Fact::Gives(value, _) => start.values.push(value),
    }
}

/// What was said so far, and by one member more. Refuses only for want of memory.
fn with_fact(so_far: Found<Start>, fact: Found<Fact>) -> Result<Found<Start>, OutOfMemory>
    ensures { IfOk result (λ found. found ≡ both_found started so_far fact) }
{
    match pair(so_far, fact) {
        Ok((mut start, fact)) => {
            add_fact(&mut start, fact)?;
            Ok(Ok(start))
        }
        Err(fault) => Ok(Err(fault)),
    }
}

/// The facts and values at the start. Refuses only for want of memory.
pub fn read_start(alloc: Global, trees: &[Tree]) -> Result<Found<Start>, OutOfMemory>
    ensures { IfOk result (λ found. found ≡ found_in (init_rule (nodes_in trees.now))) }
{
    let mut so_far = Ok(Start {
        facts: List::with_capacity(alloc, trees.len())?,
        values: List::new(alloc),
    });
    let mut single = Ok(());
    let mut costs = HashMap::new(alloc);
    for tree in trees {
        let fact = read_fact(alloc, tree)?;
        single = check_given(alloc, single, &mut costs, tree, &fact)?;
        so_far = with_fact(so_far, fact)?;
    }
    Ok(second(single, so_far))
}
