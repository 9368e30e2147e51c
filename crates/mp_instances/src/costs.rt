//! What an action costs with objects for its parameters.

ghost use Rattle.std.specs.Prelude.{◌≡◌, IfOk};
ghost use Rattle.mp_instances.specs.Costs.{amount_at, cost_at};

use crate::values::FunctionValues;
use mp_lifted::{Amount, add_objects};
use mp_list::{OutOfMemory, does_not_fit};
use std::alloc::Global;

/// What an amount is with these objects: none where a value is missing.
fn find_amount(
    alloc: Global,
    values: &FunctionValues<'_>,
    objects: &[u32],
    amount: &Amount,
) -> Result<Option<u64>, OutOfMemory>
    ensures { IfOk result (λ cost. cost ≡ amount_at values.now objects.now amount.now) }
{
    match amount {
        Amount::Number(cost) => Ok(Some(*cost)),
        Amount::Value(function) => {
            let mut args = Vec::new(alloc);
            add_objects(&mut args, objects, function)?;
            Ok(values.value(function.symbol, args.as_slice()))
        }
        Amount::Missing => Ok(None),
    }
}

/// The sum of amounts with these objects: none where a value is missing. A sum that is no number of
/// 64 bits is taken for want of memory.
pub fn sum_amounts(
    alloc: Global,
    values: &FunctionValues<'_>,
    objects: &[u32],
    amounts: &[Amount],
) -> Result<Option<u64>, OutOfMemory>
    ensures { IfOk result (λ cost. cost ≡ cost_at values.now objects.now amounts.now) }
{
    let mut sum = 0_u64;
    for amount in amounts {
        let Some(cost) = find_amount(alloc, values, objects, amount)? else {
            return Ok(None);
        };
        let Some(more) = sum.checked_add(cost) else {
            return Err(does_not_fit());
        };
        sum = more;
    }
    Ok(Some(sum))
}
