//! Costs, and what effects say: adds, deletes and increases of the total cost.

ghost use Rattle.std.specs.Prelude.{◌≡◌, [], List, map, ◌-◌, IfOk, OnOk};
ghost use Rattle.mp_sexp.specs.Node.{node_of, nodes_in};
ghost use Rattle.mp_forms.specs.Conjuncts.{is_increase};
ghost use Rattle.mp_forms.specs.Limits.{most_increases};
ghost use Rattle.mp_forms.specs.Reading.{besides, each, nothing_more, at_most};
ghost use Rattle.mp_factor.specs.Found.{found_in, said_found, both_found};
ghost use Rattle.mp_factor.specs.FoundForms.{grown};
ghost use Rattle.mp_forms.specs.Rules.Costs.{allowed, cost_rule};
ghost use Rattle.mp_forms.specs.Rules.Effects.{target_rule, amount_rule, increase_rule, change_rule, surplus_increase, effect_rule, effect_of};

use crate::atom_values::{Applied, AtomForm, TermForm};
use crate::conjuncts::conjuncts_in;
use crate::counted::{Room, counted};
use crate::found::{Form, Found, cost_fault, expect_end, pair, second, shape_fault, word_fault};
use crate::literal::NegatedForm;
use crate::numbers::{cost, is_spelled_as_number};
use crate::trees::{has_head, is_keyword, is_list_tree, members, place, word};
use crate::word::NameForm;
use mp_forms::{Change, Effect, FaultKind, Increase};
use mp_list::{List, OutOfMemory};
use mp_sexp::{Place, Tree};
use std::alloc::Global;

/// The most increases of an action.
const MOST_INCREASES: u64 = 16;

/// A cost at this place, where it is one.
fn allowed_cost(alloc: Global, place: Place, cost: Option<u64>) -> Found<u64>
    ensures { result ≡ found_in (allowed place cost) }
{
    match cost {
        Some(cost) => Ok(cost),
        None => cost_fault(alloc, place),
    }
}

/// A number that is a cost.
#[derive(Clone, Copy)]
pub struct CostForm;

#[tactic(auto, unfolding(mp_forms::specs::Rules::Costs::cost_rule))]
impl Form<u64> for CostForm {
    ghost rule = { λ form node. cost_rule node };

    fn read(&self, alloc: Global, tree: &Tree) -> Result<Found<u64>, OutOfMemory> {
        if is_spelled_as_number(word(tree)) {
            Ok(allowed_cost(alloc, place(tree), cost(word(tree))))
        } else {
            Ok(shape_fault(alloc, place(tree)))
        }
    }
}

/// What is increased, where `head` is the word `increase`: the total cost alone. Refuses only for want of memory.
#[tactic(auto, unfolding(mp_forms::specs::Rules::Effects::target_rule))]
fn check_target(alloc: Global, head: &Tree, tree: &Tree) -> Result<Found<()>, OutOfMemory>
    ensures { IfOk result (λ found. found ≡ found_in (target_rule (node_of head.now) (node_of tree.now))) }
{
    if is_keyword(tree, b"total-cost") {
        return Ok(shape_fault(alloc, place(tree)));
    }
    match members(tree) {
        [] => word_fault(alloc, head),
        [function, extra @ ..] => {
            if is_keyword(function, b"total-cost") {
                Ok(expect_end(alloc, extra))
            } else {
                word_fault(alloc, head)
            }
        }
    }
}

/// A number, or a function applied to terms. Refuses only for want of memory.
#[tactic(auto, using(crate::proofs::FoundLemmas::found_said), unfolding(mp_forms::specs::Rules::Effects::amount_rule))]
fn read_amount(alloc: Global, tree: &Tree) -> Result<Found<Increase>, OutOfMemory>
    ensures { IfOk result (λ found. found ≡ found_in (amount_rule (node_of tree.now))) }
{
    if is_list_tree(tree) {
        let function = Applied {
            name: NameForm,
            term: TermForm,
        };
        Ok(
            function
                .read(alloc, tree)?
                .map(|atom| Increase::Function(atom)),
        )
    } else {
        Ok(
            CostForm
                .read(alloc, tree)?
                .map(|cost| Increase::Number(cost)),
        )
    }
}

/// An increase with these members. Refuses only for want of memory.
#[tactic(auto, using(crate::proofs::FoundLemmas::found_both))]
fn increase_by(
    alloc: Global,
    head: &Tree,
    target: &Tree,
    amount: &Tree,
    extra: &[Tree],
) -> Result<Found<Increase>, OutOfMemory>
    ensures { IfOk result (λ found. found ≡ found_in (besides (nothing_more (nodes_in extra.now))
        (besides (target_rule (node_of head.now) (node_of target.now)) (amount_rule (node_of amount.now))))) }
{
    let total = check_target(alloc, head, target)?;
    let by = second(total, read_amount(alloc, amount)?);
    Ok(second(expect_end(alloc, extra), by))
}

/// `(increase (total-cost) AMOUNT)`.
#[tactic(auto, unfolding(mp_forms::specs::Rules::Effects::increase_rule))]
fn read_increase(alloc: Global, tree: &Tree) -> Result<Found<Increase>, OutOfMemory>
    ensures { IfOk result (λ found. found ≡ found_in (increase_rule (node_of tree.now))) }
{
    match members(tree) {
        [head, target, amount, extra @ ..] => increase_by(alloc, head, target, amount, extra),
        _ => Ok(shape_fault(alloc, place(tree))),
    }
}

/// An atom, `(not ATOM)` or an increase. Refuses only for want of memory.
#[tactic(auto, using(crate::proofs::FoundLemmas::found_said), unfolding(mp_forms::specs::Rules::Effects::change_rule))]
fn read_change(alloc: Global, tree: &Tree) -> Result<Found<Change>, OutOfMemory>
    ensures { IfOk result (λ found. found ≡ found_in (change_rule (node_of tree.now))) }
{
    if has_head(tree, b"not") {
        Ok(
            NegatedForm
                .read(alloc, tree)?
                .map(|atom| Change::Delete(atom)),
        )
    } else if has_head(tree, b"increase") {
        Ok(read_increase(alloc, tree)?.map(|increase| Change::Grow(increase)))
    } else {
        Ok(AtomForm.read(alloc, tree)?.map(|atom| Change::Add(atom)))
    }
}

/// Adds what a conjunct does. Refuses only for want of memory.
fn add_change(effect: &mut Effect, change: Change) -> Result<(), OutOfMemory>
    ensures { OnOk result (effect.new ≡ grown effect.old change) }
{
    match change {
        Change::Add(atom) => effect.add.push(atom),
        Change::Delete(atom) => effect.del.push(atom),
        Change::Grow(increase) => effect.increases.push(increase),
    }
}

/// What was done so far, and one change. Refuses only for want of memory.
fn with_change(so_far: Found<Effect>, change: Found<Change>) -> Result<Found<Effect>, OutOfMemory>
    ensures { IfOk result (λ found. found ≡ both_found (λ effect change. grown effect change) so_far change) }
{
    match pair(so_far, change) {
        Ok((mut effect, change)) => {
            add_change(&mut effect, change)?;
            Ok(Ok(effect))
        }
        Err(fault) => Ok(Err(fault)),
    }
}

/// What each of these conjuncts does. Refuses only for want of memory.
fn read_changes(alloc: Global, trees: &[&Tree]) -> Result<Found<Effect>, OutOfMemory>
    ensures { IfOk result (λ found. found
        ≡ said_found effect_of (found_in (each change_rule (map (λ t. node_of t.now) trees.now)))) }
{
    let mut so_far = Ok(Effect {
        add: List::new(alloc),
        del: List::new(alloc),
        increases: List::new(alloc),
    });
    for tree in trees {
        so_far = with_change(so_far, read_change(alloc, tree)?)?;
    }
    Ok(so_far)
}

/// Whether there are at most sixteen increases among these conjuncts.
fn check_increases(alloc: Global, trees: &[&Tree]) -> Found<()>
    ensures { result ≡ found_in (at_most most_increases is_increase surplus_increase (map (λ t. node_of t.now) trees.now)) }
{
    let mut room = Room {
        found: Ok(()),
        left: MOST_INCREASES,
    };
    for tree in trees {
        room = counted(
            alloc,
            room,
            has_head(tree, b"increase"),
            place(tree),
            FaultKind::Cost,
        );
    }
    room.found
}

/// An effect.
#[derive(Clone, Copy)]
pub struct EffectForm;

#[tactic(auto, using(crate::proofs::FoundLemmas::found_both, crate::proofs::FoundLemmas::found_said), unfolding(mp_forms::specs::Rules::Effects::effect_rule))]
impl Form<Effect> for EffectForm {
    ghost rule = { λ form node. effect_rule node };

    fn read(&self, alloc: Global, tree: &Tree) -> Result<Found<Effect>, OutOfMemory> {
        let conjuncts = conjuncts_in(alloc, tree)?;
        let few = check_increases(alloc, conjuncts.as_slice());
        Ok(second(few, read_changes(alloc, conjuncts.as_slice())?))
    }
}
