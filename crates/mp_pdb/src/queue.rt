//! Sets of facts that wait with their numbers.

ghost use Rattle.std.specs.Prelude.{◌≡◌, [], ◌∷◌, IfNone, IfSome, OnOk, IsPermutation};
ghost use Rattle.mp_estimates.specs.Lowering.{key};

use mp_list::OutOfMemory;
use std::alloc::Global;
use std::cmp::Reverse;
use std::collections::BinaryHeap;
use std::marker::Model;

/// Entries, each a number and the set that has it, of which one of the least number comes first. Contracts see the list of
/// them, in an order that says nothing: the numbers that are settled are the same in any order, and fewer are lowered twice
/// in this one.
#[derive(Drop)]
pub(crate) struct Queue {
    heap: BinaryHeap<Reverse<(u64, u16)>>,
}

impl Model for Queue {
    ghost use Rattle.std.specs.Prelude.{List};
    ghost use Rattle.mp_pdb.specs.Queue.{queue_entries};
    ghost use Rattle.mp_estimates.specs.Lowering.{Key};

    ghost Value = { List Key };

    ghost view = { queue_entries };
}

impl Queue {
    /// Without entries.
    pub(crate) fn new(alloc: Global) -> Queue
        ensures { result ≡ [] }
    {
        Queue {
            heap: BinaryHeap::new(alloc),
        }
    }

    /// One more entry. Refuses only for want of memory.
    pub(crate) fn push(&mut self, number: u64, mask: u16) -> Result<(), OutOfMemory>
        ensures { OnOk result (IsPermutation (key number mask ∷ self.old) self.new) }
    {
        self.heap.push(Reverse((number, mask)))?;
        Ok(())
    }

    /// Takes out an entry of the least number.
    pub(crate) fn pop(&mut self) -> Option<(u64, u16)>
        ensures entry { IfSome result (λ e. IsPermutation self.old (key e.0 e.1 ∷ self.new)) }
        ensures none { IfNone result (self.old ≡ []) }
    {
        let Reverse(entry) = self.heap.pop()?;
        Some(entry)
    }
}
