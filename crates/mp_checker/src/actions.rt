//! Actions in numbers.

ghost use Rattle.std.specs.Prelude.{◌≡◌, map, length, IfOk};
ghost use Rattle.mp_typing.specs.ObjectList.{object_list};
ghost use Rattle.mp_joint.specs.FactorContribution.{privates_of};
ghost use Rattle.mp_checker.specs.Numbering.{amount as amount_of, amounts as amounts_of, numbered_action as action_of, is_total_cost as is_cost};
ghost use Rattle.mp_lifting.specs.Privates.{private_in};

use crate::atoms::{numbered_atom, numbered_atoms, numbered_literals};
use crate::members::all_members;
use crate::numbered::{Amount, NumberedAction};
use mp_forms::{Atom, Increase, IncreaseList, Schema, SchemaList, TypedList};
use mp_lifting::PrivateNames;
use mp_list::{List, OutOfMemory};
use mp_sexp::NameTable;
use mp_typing::CheckedFactor;
use std::alloc::Global;

/// Whether a function is the total cost.
fn is_total_cost(function: &Atom) -> bool
    ensures { result ≡ is_cost function.now }
{
    function.word.name.is(b"total-cost")
}

/// What an increase adds, in numbers.
fn amount(
    alloc: Global,
    names: &NameTable<'_>,
    privates: &PrivateNames<'_>,
    params: &TypedList,
    increase: &Increase,
) -> Result<Amount, OutOfMemory>
    ensures { IfOk result (λ made. made ≡ amount_of names.now (private_in privates.now) params.now increase.now) }
{
    match increase {
        Increase::Number(cost) => Ok(Amount::Number(*cost)),
        Increase::Function(function) => {
            if is_total_cost(function) {
                return Ok(Amount::Missing);
            }
            Ok(Amount::Value(numbered_atom(alloc, names, privates, params, function)?))
        }
    }
}

/// What increases add, in numbers.
fn increases_of(
    alloc: Global,
    names: &NameTable<'_>,
    privates: &PrivateNames<'_>,
    params: &TypedList,
    increases: &IncreaseList,
) -> Result<List<Amount>, OutOfMemory>
    ensures { IfOk result (λ made. made
        ≡ map (amount_of names.now (private_in privates.now) params.now) increases.now) }
{
    let mut made = List::with_capacity(alloc, increases.len())?;
    for increase in increases.as_slice() {
        made.push(amount(alloc, names, privates, params, increase)?)?;
    }
    Ok(made)
}

/// What the cost of an action is the sum of.
fn amounts(
    alloc: Global,
    names: &NameTable<'_>,
    privates: &PrivateNames<'_>,
    metric: bool,
    schema: &Schema,
) -> Result<List<Amount>, OutOfMemory>
    ensures { IfOk result (λ made. made ≡ amounts_of names.now (private_in privates.now) metric schema.now) }
{
    if metric {
        return increases_of(alloc, names, privates, &schema.params, &schema.increases);
    }
    let mut made = List::with_capacity(alloc, 1)?;
    made.push(Amount::Number(1))?;
    Ok(made)
}

/// An action in numbers, of a factor that has so many objects.
fn numbered_action(
    alloc: Global,
    names: &NameTable<'_>,
    privates: &PrivateNames<'_>,
    factor: &CheckedFactor,
    count: usize,
    schema: &Schema,
) -> Result<NumberedAction, OutOfMemory>
    requires privates { private_in privates.now ≡ privates_of factor.now }
    requires count { count ≡ length (object_list factor.now.domain factor.now.problem) }
    ensures { IfOk result (λ made. made ≡ action_of names.now factor.now schema.now) }
{
    let params = &schema.params;
    let metric = factor.factor().problem.metric;
    Ok(NumberedAction {
        members: all_members(alloc, factor, count, params)?,
        pre: numbered_literals(alloc, names, privates, params, &schema.pre)?,
        add: numbered_atoms(alloc, names, privates, params, &schema.add)?,
        del: numbered_atoms(alloc, names, privates, params, &schema.del)?,
        amounts: amounts(alloc, names, privates, metric, schema)?,
    })
}

/// Actions in numbers. Refuses only for want of memory.
pub fn numbered_actions(
    alloc: Global,
    names: &NameTable<'_>,
    privates: &PrivateNames<'_>,
    factor: &CheckedFactor,
    count: usize,
    schemas: &SchemaList,
) -> Result<List<NumberedAction>, OutOfMemory>
    requires privates { private_in privates.now ≡ privates_of factor.now }
    requires count { count ≡ length (object_list factor.now.domain factor.now.problem) }
    ensures { IfOk result (λ made. made ≡ map (action_of names.now factor.now) schemas.now) }
{
    let mut made = List::with_capacity(alloc, schemas.len())?;
    for schema in schemas.as_slice() {
        made.push(numbered_action(alloc, names, privates, factor, count, schema)?)?;
    }
    Ok(made)
}
