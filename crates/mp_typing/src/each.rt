//! What is checked item by item: the first fault of all items of a list.

ghost use Rattle.std.specs.Prelude.{◌≡◌, List, IfOk};
ghost use Rattle.std.specs.List.{flat_map};
ghost use Rattle.mp_typing.specs.Faults.{leftmost};
ghost use Rattle.mp_typing.specs.declared.fault.Fault.{Fault as FaultOf};

use crate::fault::Fault;
use mp_list::OutOfMemory;

/// A check of items of one kind.
pub trait Check<T> {
    ghost faults: { Self → T → List FaultOf };

    /// The first fault, with those of an item. Refuses only for want of memory.
    fn fault(&self, least: Option<Fault>, item: &T) -> Result<Option<Fault>, OutOfMemory>
        ensures { IfOk result (λ first. first ≡ leftmost least (faults self.now item.now)) };
}

/// The first fault, with those of some items. Refuses only for want of memory.
pub fn each_fault<T, C: Check<T>>(
    least: Option<Fault>,
    check: &C,
    items: &[T],
) -> Result<Option<Fault>, OutOfMemory>
    ensures { IfOk result (λ first. first ≡ leftmost least (flat_map (C.faults check.now) items.now)) }
{
    let mut first = least;
    for item in items {
        first = check.fault(first, item)?;
    }
    Ok(first)
}
