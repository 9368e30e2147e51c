//! Appending to a vector.

ghost use Rattle.std.specs.Prelude.{◌≡◌, ◌++◌, ◌∷◌, [], OnOk, IfErr};

use crate::refusal::Refusal;

/// Appends an item. Refuses only for want of memory.
pub(crate) fn push<T: Drop>(items: &mut Vec<T>, item: T) -> Result<(), Refusal>
    ensures appended { OnOk result (items.new.items ≡ items.old.items ++ item ∷ []) }
    ensures memory { IfErr result (λ e. e ≡ Refusal.OutOfMemory) }
{
    if items.push(item).is_err() {
        return Err(Refusal::OutOfMemory);
    }
    Ok(())
}
