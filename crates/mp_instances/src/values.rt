//! The values of functions.

ghost use Rattle.std.specs.Prelude.{◌≡◌, ◌++◌, ◌∷◌, [], List, IfOk, OnOk};
ghost use Rattle.mp_lifted.specs.declared.lifted.GroundValue.{GroundValue};
ghost use Rattle.mp_instances.specs.Costs.{value_of};
ghost use Rattle.mp_instances.specs.Tables.{HasValues};

use mp_lifted::GroundValue;
use mp_list::OutOfMemory;
use std::alloc::Global;
use std::collections::HashMap;
use std::marker::Model;

/// The values of functions at objects. Contracts see it as the list of them.
#[derive(Drop)]
pub struct FunctionValues<'a> {
    values: &'a [GroundValue],
    /// For each function and its objects the first value.
    first: HashMap<(u32, &'a [u32]), u64>,
}

impl<'a> Model for FunctionValues<'a> {
    ghost use Rattle.std.specs.Prelude.{List};
    ghost use Rattle.mp_lifted.specs.declared.lifted.GroundValue.{GroundValue};
    ghost use Rattle.mp_instances.specs.Tables.{HasValues};

    ghost Value = { List GroundValue };

    ghost view = { λ t. t.values.now };

    ghost invariant = { λ t. HasValues t.first.entries t.values.now };
}

impl<'a> FunctionValues<'a> {
    /// A table of these values. Refuses only for want of memory.
    pub fn new(alloc: Global, values: &'a [GroundValue]) -> Result<FunctionValues<'a>, OutOfMemory>
        ensures { IfOk result (λ table. table ≡ values.now) }
    {
        let mut first = HashMap::new(alloc);
        for value in values {
            add(&mut first, value)?;
        }
        Ok(FunctionValues { values, first })
    }

    /// The value of a function at objects: none where it has none. It takes no memory.
    pub fn value(&self, function: u32, objects: &[u32]) -> Option<u64>
        ensures { result ≡ value_of self.now (record { symbol = function; args = objects.now }) }
    {
        self.first.get(&(function, objects)).copied()
    }
}

/// Adds a value of a function that has none yet.
fn add<'a>(
    first: &mut HashMap<(u32, &'a [u32]), u64>,
    value: &'a GroundValue,
) -> Result<(), OutOfMemory>
    ensures { (before : List GroundValue) → HasValues first.old.entries before
        → OnOk result (HasValues first.new.entries (before ++ value.now ∷ [])) }
{
    let key = (value.of.symbol, value.of.args.as_slice());
    if !first.contains_key(&key) {
        first.insert(key, value.cost)?;
    }
    Ok(())
}
