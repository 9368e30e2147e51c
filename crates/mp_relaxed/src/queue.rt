//! Facts that wait with their numbers.

ghost use Rattle.std.specs.Prelude.{◌≡◌, [], ◌∷◌, IfNone, IfSome, OnOk, IsPermutation};
ghost use Rattle.mp_estimates.specs.Lowering.{key};
ghost use Rattle.mp_relaxed.specs.Search.{AreFrom};

use crate::places::{Places, ROWS};
use mp_list::OutOfMemory;
use std::alloc::Global;
use std::cmp::Reverse;
use std::collections::BinaryHeap;
use std::marker::Model;

/// Entries, each a number and the fact that has it, of which one of the least number comes first: small numbers in
/// places of their own, and greater ones in a heap. Contracts see the list of them, in an order that says nothing.
#[derive(Drop)]
pub(crate) struct Queue {
    places: Places,
    heap: BinaryHeap<Reverse<(u64, u32)>>,
}

impl Model for Queue {
    ghost use Rattle.std.specs.Prelude.{List};
    ghost use Rattle.mp_relaxed.specs.Queue.{IsInOrder, queue_entries};
    ghost use Rattle.mp_estimates.specs.Lowering.{Key};

    ghost Value = { List Key };

    ghost view = { queue_entries };

    ghost invariant = { IsInOrder };
}

impl Queue {
    /// Without entries. Takes no memory.
    pub(crate) fn new(alloc: Global) -> Queue
        ensures { result ≡ [] }
    {
        Queue {
            places: Places::new(alloc),
            heap: BinaryHeap::new(alloc),
        }
    }

    /// Takes all entries away.
    pub(crate) fn clear(&mut self)
        ensures { self.new ≡ [] }
    {
        self.places.clear();
        self.heap.clear();
    }

    /// One more entry. Refuses only for want of memory.
    pub(crate) fn push(&mut self, number: u64, fact: u32) -> Result<(), OutOfMemory>
        ensures { OnOk result (IsPermutation (key number fact ∷ self.old) self.new) }
    {
        if number < ROWS as u64 {
            self.places.push(number as usize, fact)
        } else {
            self.heap.push(Reverse((number, fact)))?;
            Ok(())
        }
    }

    /// Takes out an entry of the least number.
    #[inline(always)]
    pub(crate) fn pop(&mut self) -> Option<(u64, u32)>
        ensures entry { IfSome result (λ e. IsPermutation self.old (key e.0 e.1 ∷ self.new)) }
        ensures least { IfSome result (λ e. AreFrom e.0 self.old) }
        ensures none { IfNone result (self.old ≡ []) }
    {
        if let Some(entry) = self.places.pop() {
            return Some(entry);
        }
        let Reverse(entry) = self.heap.pop()?;
        Some(entry)
    }
}
