//! What an action costs with objects for its parameters.

ghost use Rattle.std.specs.Prelude.{◌≡◌, None, IfOk};
ghost use Rattle.std.specs.Map.{lookup};
ghost use Rattle.mp_checker.specs.Costs.{amount_at as amount_of, cost_at as cost_of};
ghost use Rattle.mp_checker.specs.Keys.{same_numbers};

use crate::at::add_objects;
use crate::fact::FactNumbers;
use crate::key::FactKey;
use crate::numbered::{Amount, ObjectNumber};
use indexmap::IndexMap;
use mp_list::{OutOfMemory, does_not_fit};

/// The value of a function at objects: none where there is none.
fn value(values: &IndexMap<FactNumbers, u64>, symbol: u32, objects: &[u32]) -> Option<u64>
    ensures { result ≡ lookup (same_numbers
        (record { owner = None; symbol = symbol; objects = objects.now })) values.now.entries }
{
    let key = FactKey {
        owner: None,
        symbol,
        objects,
    };
    values.get(key).copied()
}

/// What an amount is with these objects: none where a value is missing.
fn amount_at(
    values: &IndexMap<FactNumbers, u64>,
    room: &mut Vec<u32>,
    args: &[ObjectNumber],
    amount: &Amount,
) -> Result<Option<u64>, OutOfMemory>
    ensures { IfOk result (λ cost. cost ≡ amount_of values.now.entries args.now amount.now) }
{
    match amount {
        Amount::Number(cost) => Ok(Some(*cost)),
        Amount::Value(function) => {
            room.clear();
            add_objects(room, args, &function.terms)?;
            Ok(value(values, function.symbol, room.as_slice()))
        }
        Amount::Missing => Ok(None),
    }
}

/// The sum of amounts with these objects: none where a value is missing. A sum that is no number of 64 bits, which none
/// of a checked factor is, is taken for want of memory.
pub fn cost_at(
    values: &IndexMap<FactNumbers, u64>,
    room: &mut Vec<u32>,
    args: &[ObjectNumber],
    amounts: &[Amount],
) -> Result<Option<u64>, OutOfMemory>
    ensures { IfOk result (λ cost. cost ≡ cost_of values.now.entries args.now amounts.now) }
{
    let mut sum = 0_u64;
    for amount in amounts {
        let Some(cost) = amount_at(values, room, args, amount)? else {
            return Ok(None);
        };
        let Some(more) = sum.checked_add(cost) else {
            return Err(does_not_fit());
        };
        sum = more;
    }
    Ok(Some(sum))
}
