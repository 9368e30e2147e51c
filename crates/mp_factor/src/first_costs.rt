//! The functions that are given a value at the start, each with the first cost that it is given.

ghost use Rattle.std.specs.Prelude.{◌≡◌, ◌++◌, ◌∷◌, [], List as ListOf, IfOk, OnOk, if◌then◌else◌};
ghost use Rattle.mp_sexp.specs.Node.{node_of};
ghost use Rattle.mp_forms.specs.Limits.{names_of_atom};
ghost use Rattle.mp_forms.specs.Reading.{Says, all_right, costly};
ghost use Rattle.mp_factor.specs.Found.{found_in, second_found};
ghost use Rattle.mp_factor.specs.FirstCosts.{AreFirst, function_words, given_by};
ghost use Rattle.mp_forms.specs.Rules.Init.{Given, differing, fact_rule};

use crate::found::{Found, cost_fault, second};
use crate::function_key::FunctionKey;
use crate::trees::members;
use mp_forms::{Fact, Value};
use mp_list::OutOfMemory;
use mp_sexp::{Place, Tree};
use std::alloc::Global;
use std::collections::HashMap;

/// The first cost of each function, by its name and what it is applied to.
pub type FirstCosts<'a> = HashMap<FunctionKey<'a>, u64>;

/// The function of what gives a value; of another tree what stands there.
fn function_key(tree: &Tree) -> FunctionKey<'_>
    ensures { result ≡ function_words (node_of tree.now) }
{
    match members(tree) {
        [_, function, ..] => FunctionKey { tree: function },
        _ => FunctionKey { tree },
    }
}

/// What is wrong with a value at this place, where it is another one than the first of its function.
fn differing_fault(alloc: Global, is_other: bool, at: Place) -> Found<()>
    ensures { result ≡ found_in (if is_other then costly at else Says tt) }
{
    if is_other {
        cost_fault(alloc, at)
    } else {
        Ok(())
    }
}

/// Whether a value is no other than the first of its function, where these are the costs of the earlier ones; then they
/// are those of this one too. Refuses only for want of memory.
fn check_value<'a>(
    alloc: Global,
    costs: &mut FirstCosts<'a>,
    function: FunctionKey<'a>,
    value: &Value,
    at: Place,
) -> Result<Found<()>, OutOfMemory>
    requires { function ≡ names_of_atom value.now.of }
    ensures fault { (before : ListOf Given) → AreFirst costs.old.entries before → IfOk result (λ found. found
        ≡ found_in (all_right (λ g. costly g.at) (differing before (record { value = value.now; at = at } ∷ [])))) }
    ensures costs { (before : ListOf Given) → AreFirst costs.old.entries before
        → OnOk result (AreFirst costs.new.entries (before ++ record { value = value.now; at = at } ∷ [])) }
{
    match costs.get(&function).copied() {
        Some(first) => Ok(differing_fault(alloc, first != value.cost, at)),
        None => {
            costs.insert(function, value.cost)?;
            Ok(Ok(()))
        }
    }
}

/// The first of what is wrong so far, and what is wrong with what a member says of a value. Refuses only for want of
/// memory.
#[tactic(auto, using(crate::proofs::FirstCostLemmas::none_given))]
pub fn check_given<'a>(
    alloc: Global,
    so_far: Found<()>,
    costs: &mut FirstCosts<'a>,
    tree: &'a Tree,
    fact: &Found<Fact>,
) -> Result<Found<()>, OutOfMemory>
    requires said { fact.now ≡ found_in (fact_rule (node_of tree.now)) }
    ensures fault { (before : ListOf Given) → AreFirst costs.old.entries before → IfOk result (λ found. found
        ≡ second_found so_far (found_in (all_right (λ g. costly g.at) (differing before (given_by fact.now))))) }
    ensures costs { (before : ListOf Given) → AreFirst costs.old.entries before
        → OnOk result (AreFirst costs.new.entries (before ++ given_by fact.now)) }
{
    let Ok(fact) = fact else {
        return Ok(so_far);
    };
    match fact {
        Fact::Gives(value, at) => Ok(second(
            so_far,
            check_value(alloc, costs, function_key(tree), value, *at)?,
        )),
        Fact::Holds(_) => Ok(so_far),
    }
}
