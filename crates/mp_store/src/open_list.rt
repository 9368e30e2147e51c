//! The open list: the ranks of entries that wait.

ghost use Rattle.std.specs.BinaryHeap.{IsHeap, heap_items};
ghost use Rattle.std.specs.Prelude.{◌≡◌, [], ◌∷◌, ◌++◌, IfSome, IsPermutation, IsTrue, OnErr, OnOk};
ghost use Rattle.mp_store.specs.OpenFields.{from_first, is_ahead, listed, sooner_of, AreInOrder};
ghost use Rattle.mp_store.specs.Ranks.{first_rank};

use crate::rank::Rank;
use mp_list::OutOfMemory;
use std::alloc::Global;
use std::cmp::Reverse;
use std::collections::{BinaryHeap, VecDeque};
use std::marker::Model;

/// Ranks, of which the first one is at hand. Contracts see the list of them, in an order that says nothing.
#[derive(Drop)]
pub(crate) struct OpenList {
    /// Ranks in their order: nearly all, where nothing is estimated and all actions cost the same.
    in_order: VecDeque<Rank>,
    /// The others.
    heap: BinaryHeap<Reverse<Rank>>,
}

impl Model for OpenList {
    ghost use Rattle.std.specs.Prelude.{List};
    ghost use Rattle.mp_store.specs.declared.rank.Rank.{Rank};
    ghost use Rattle.mp_store.specs.OpenFields.{listed_ranks, IsOpenList};

    ghost Value = { List Rank };

    ghost view = { listed_ranks };

    ghost invariant = { IsOpenList };
}

impl OpenList {
    /// Without ranks; takes no memory yet.
    pub(crate) fn new(alloc: Global) -> OpenList
        ensures { result ≡ [] }
    {
        OpenList {
            in_order: VecDeque::new(alloc),
            heap: BinaryHeap::new(alloc),
        }
    }

    /// One more rank. Refuses only for want of memory.
    pub(crate) fn insert(&mut self, rank: Rank) -> Result<(), OutOfMemory>
        ensures ok { OnOk result (IsPermutation (rank ∷ self.old) self.new) }
        ensures err { OnErr result (self.new ≡ self.old) }
    {
        if is_behind(&self.in_order, rank) {
            self.in_order.push_back(rank)?;
        } else {
            self.heap.push(Reverse(rank))?;
        }
        Ok(())
    }

    /// The first rank.
    pub(crate) fn first(&self) -> Option<Rank>
        ensures { result ≡ first_rank self.now }
    {
        sooner_of(first_in_order(&self.in_order), first_of_heap(&self.heap))
    }

    /// Takes out the first rank.
    pub(crate) fn pop_first(&mut self) -> Option<Rank>
        ensures first { result ≡ first_rank self.old }
        ensures rest { IfSome result (λ rank. IsPermutation self.old (rank ∷ self.new)) }
    {
        if is_ahead(first_in_order(&self.in_order), first_of_heap(&self.heap)) {
            pop_in_order(&mut self.in_order)
        } else {
            pop_heap(&mut self.heap)
        }
    }
}

/// Whether a rank may stand behind others.
fn is_behind(ranks: &VecDeque<Rank>, rank: Rank) -> bool
    requires { AreInOrder ranks.now.items }
    ensures { IsTrue result → AreInOrder (ranks.now.items ++ rank ∷ []) }
{
    match ranks.back() {
        Some(last) => *last < rank,
        None => true,
    }
}

/// The first one of ranks in their order.
fn first_in_order(ranks: &VecDeque<Rank>) -> Option<Rank>
    requires { AreInOrder ranks.now.items }
    ensures { result ≡ first_rank ranks.now.items }
{
    match ranks.front() {
        Some(rank) => Some(*rank),
        None => None,
    }
}

/// Takes out the first one of ranks in their order.
fn pop_in_order(ranks: &mut VecDeque<Rank>) -> Option<Rank>
    requires { AreInOrder ranks.old.items }
    ensures first { result ≡ first_rank ranks.old.items }
    ensures rest { IfSome result (λ rank. ranks.old.items ≡ rank ∷ ranks.new.items) }
    ensures in_order { AreInOrder ranks.new.items }
{
    ranks.pop_front()
}

/// The first rank of a heap.
fn first_of_heap(heap: &BinaryHeap<Reverse<Rank>>) -> Option<Rank>
    requires { IsHeap from_first (heap_items heap.now) }
    ensures { result ≡ first_rank (listed (heap_items heap.now)) }
{
    match heap.peek() {
        Some(rank) => Some(rank.0),
        None => None,
    }
}

/// Takes out the first rank of a heap.
fn pop_heap(heap: &mut BinaryHeap<Reverse<Rank>>) -> Option<Rank>
    requires { IsHeap from_first (heap_items heap.old) }
    ensures first { result ≡ first_rank (listed (heap_items heap.old)) }
    ensures rest { IfSome result (λ rank. IsPermutation (listed (heap_items heap.old)) (rank ∷ listed (heap_items heap.new))) }
    ensures heaped { IsHeap from_first (heap_items heap.new) }
{
    let Reverse(rank) = heap.pop()?;
    Some(rank)
}

/// Whether there is a rank, and it comes before another, if there is that.
fn is_ahead(rank: Option<Rank>, other: Option<Rank>) -> bool
    ensures { result ≡ is_ahead rank other }
{
    let Some(rank) = rank else {
        return false;
    };
    match other {
        Some(other) => rank < other,
        None => true,
    }
}

/// The sooner one of two ranks, if there are any.
fn sooner_of(rank: Option<Rank>, other: Option<Rank>) -> Option<Rank>
    ensures { result ≡ sooner_of rank other }
{
    if is_ahead(rank, other) { rank } else { other }
}
