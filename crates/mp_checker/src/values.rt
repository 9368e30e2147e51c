//! The values of functions.

ghost use Rattle.std.specs.Prelude.{◌≡◌, ◌++◌, ◌∷◌, [], ℕ, map, List as ListOf, IfOk, OnOk};
ghost use Rattle.mp_forms.specs.Limits.{name_of_term};
ghost use Rattle.mp_forms.specs.declared.init_values.Value.{Value as FunctionValue};
ghost use Rattle.mp_sexp.specs.Numbers.{number_in};
ghost use Rattle.mp_checker.specs.Costs.{HasValues, numbers_of_value};

use crate::fact::FactNumbers;
use indexmap::IndexMap;
use mp_forms::{TermList, Value, ValueList};
use mp_list::{List, OutOfMemory, to_u32};
use mp_sexp::NameTable;
use std::alloc::Global;

/// The numbers of names.
fn numbers_of_terms(
    alloc: Global,
    names: &NameTable<'_>,
    terms: &TermList,
) -> Result<List<u32>, OutOfMemory>
    ensures { IfOk result (λ numbers. numbers ≡ map (λ t. number_in names.now (name_of_term t)) terms.now) }
{
    let mut numbers = List::with_capacity(alloc, terms.len())?;
    for term in terms.as_slice() {
        numbers.push(to_u32(names.number(term.name()))?)?;
    }
    Ok(numbers)
}

/// A function at the objects for which there is a value.
fn function_of(
    alloc: Global,
    names: &NameTable<'_>,
    value: &Value,
) -> Result<FactNumbers, OutOfMemory>
    ensures { IfOk result (λ made. made ≡ numbers_of_value names.now value.now) }
{
    Ok(FactNumbers {
        owner: None,
        symbol: to_u32(names.number(&value.of.word.name))?,
        objects: numbers_of_terms(alloc, names, &value.of.terms)?,
    })
}

/// Adds a value, where its function has none yet.
fn add_value(
    kept: &mut IndexMap<FactNumbers, u64>,
    function: FactNumbers,
    cost: u64,
) -> Result<(), OutOfMemory>
    ensures { (names : ListOf (ListOf ℕ)) (before : ListOf FunctionValue) (value : FunctionValue)
        → function ≡ numbers_of_value names value → cost ≡ value.cost → HasValues names kept.old.entries before
        → OnOk result (HasValues names kept.new.entries (before ++ value ∷ [])) }
{
    if kept.contains_key(&function) {
        return Ok(());
    }
    kept.insert(function, cost)?;
    Ok(())
}

/// The values of functions at objects, the first one of each. Refuses only for want of memory.
pub fn kept_values(
    alloc: Global,
    names: &NameTable<'_>,
    values: &ValueList,
) -> Result<IndexMap<FactNumbers, u64>, OutOfMemory>
    ensures { IfOk result (λ kept. HasValues names.now kept.entries values.now) }
{
    let mut kept = IndexMap::new(alloc);
    for value in values.as_slice() {
        let function = function_of(alloc, names, value)?;
        add_value(&mut kept, function, value.cost)?;
    }
    Ok(kept)
}
