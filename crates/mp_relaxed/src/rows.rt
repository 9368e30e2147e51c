//! Rows of numbers in one array.

ghost use Rattle.std.specs.Prelude.{◌≡◌, ◌<◌, ◌≤◌, ◌+◌, ◌^◌, ◌++◌, ◌∷◌, [], All, length, map, vec_len, slice_index_or, IfOk, OnOk};
ghost use Rattle.mp_task.specs.Projected.{facts_of};

use mp_list::{OutOfMemory, to_u32};
use mp_sets::FactList;
use std::alloc::Global;
use std::marker::Model;

/// Where a row stands. Its numbers have 32 bits for half the memory: what does not fit is refused when it is added.
#[derive(Clone, Copy)]
pub(crate) struct Row {
    start: u32,
    len: u32,
}

/// Lists of numbers, one behind the other in one array. Contracts see them as the list of these lists.
#[derive(Drop)]
pub(crate) struct Rows {
    items: Vec<u32>,
    rows: Vec<Row>,
}

impl Model for Rows {
    ghost use Rattle.std.specs.Prelude.{ℕ, List, map, All};
    ghost use Rattle.mp_relaxed.specs.Row.{row_of, IsWithin};

    ghost Value = { List (List ℕ) };

    ghost view = { λ r. map (row_of r.items.items) r.rows.items };

    ghost invariant = { λ r. All (IsWithin r.items.items) r.rows.items };
}

impl Rows {
    /// No rows, with memory for this many rows and for this many numbers in them. Refuses only for want of memory.
    pub(crate) fn with_capacity(
        alloc: Global,
        rows: usize,
        numbers: usize,
    ) -> Result<Rows, OutOfMemory>
        ensures { IfOk result (λ made. made ≡ []) }
    {
        Ok(Rows {
            items: Vec::with_capacity(alloc, numbers)?,
            rows: Vec::with_capacity(alloc, rows)?,
        })
    }

    pub(crate) fn len(&self) -> usize
        ensures { result ≡ length self.now }
    {
        self.rows.len()
    }

    /// A row by its number.
    pub(crate) fn row(&self, k: usize) -> &[u32]
        requires { k < length self.now }
        ensures { result.now ≡ slice_index_or self.now k [] }
    {
        let row = self.rows[k];
        let start = row.start as usize;
        &self.items.as_slice()[start..start + row.len as usize]
    }

    /// How many numbers a row has.
    pub(crate) fn count(&self, k: usize) -> u32
        requires { k < length self.now }
        ensures { result ≡ length (slice_index_or self.now k []) }
    {
        self.rows[k].len
    }

    /// The rows of some numbers, in their order. Refuses only for want of memory, and where a number does not fit 32 bits,
    /// which is taken for it.
    pub(crate) fn rows_at(&self, alloc: Global, numbers: &[u32]) -> Result<Rows, OutOfMemory>
        requires { All (λ k. k < length self.now) numbers.now }
        ensures { IfOk result (λ rows. rows ≡ map (λ k. slice_index_or self.now k []) numbers.now) }
    {
        let mut rows = Rows::with_capacity(alloc, numbers.len(), numbers.len())?;
        for k in numbers {
            rows.push(self.row(*k as usize))?;
        }
        Ok(rows)
    }

    /// One more row. Refuses only for want of memory, and where a number does not fit 32 bits, which is taken for it.
    pub(crate) fn push(&mut self, row: &[u32]) -> Result<(), OutOfMemory>
        ensures { OnOk result (self.new ≡ self.old ++ row.now ∷ []) }
    {
        let start = to_u32(self.items.len())?;
        let len = to_u32(row.len())?;
        self.items.extend_from_slice(row)?;
        self.rows.push(Row { start, len })?;
        Ok(())
    }

    /// One more row, of public and private facts of a projected problem. Refuses only for want of memory, and where a
    /// number does not fit 32 bits, which is taken for it.
    pub(crate) fn push_facts(
        &mut self,
        publics: u32,
        pub_facts: &FactList,
        priv_facts: &FactList,
    ) -> Result<(), OutOfMemory>
        requires { All (λ k. publics + k < 2 ^ 32) priv_facts.now }
        ensures { OnOk result (self.new ≡ self.old ++ facts_of publics pub_facts.now priv_facts.now ∷ []) }
    {
        let before = self.items.len();
        let start = to_u32(before)?;
        gather(&mut self.items, publics, pub_facts, priv_facts)?;
        let len = to_u32(self.items.len() - before)?;
        self.rows.push(Row { start, len })?;
        Ok(())
    }
}

/// Adds public and private facts of a projected problem at the end of a vector. Refuses only for want of memory.
pub(crate) fn gather(
    facts: &mut Vec<u32>,
    publics: u32,
    pub_facts: &FactList,
    priv_facts: &FactList,
) -> Result<(), OutOfMemory>
    requires { All (λ k. publics + k < 2 ^ 32) priv_facts.now }
    ensures ok { OnOk result (facts.new.items ≡ facts.old.items ++ facts_of publics pub_facts.now priv_facts.now) }
    ensures longer { vec_len facts.old ≤ vec_len facts.new }
{
    for fact in pub_facts.as_slice() {
        facts.push(*fact)?;
    }
    for k in priv_facts.as_slice() {
        facts.push(publics + *k)?;
    }
    Ok(())
}
