//! Facts that wait with small numbers, in rows by their numbers.

ghost use Rattle.std.specs.Prelude.{◌≡◌, ◌<◌, ◌≤◌, ℕ, [], ◌∷◌, IfNone, IfSome, IsPermutation, OnOk, length, vec_len};
ghost use Rattle.mp_relaxed.specs.Places.{AreEmpty, AreEmptyWithin, HasFact, placed};
ghost use Rattle.mp_estimates.specs.Lowering.{key};
ghost use Rattle.mp_relaxed.specs.Search.{AreFrom};

use mp_list::OutOfMemory;
use std::alloc::Global;
use std::marker::Model;

/// How many numbers can have a row.
pub(crate) const ROWS: usize = 1_024;

/// Sees to it that a number has a row. The rows that are added for it are empty; where memory runs out they stay.
fn make_row(rows: &mut Vec<Vec<u32>>, number: usize) -> Result<(), OutOfMemory>
    requires number { number < 1024 }
    requires few { vec_len rows.old ≤ 1024 }
    ensures some { OnOk result (number < vec_len rows.new) }
    ensures few { vec_len rows.new ≤ 1024 }
    ensures kept { vec_len rows.old ≤ vec_len rows.new }
    ensures same { placed 0 rows.new.items ≡ placed 0 rows.old.items }
    ensures empty { (from to : ℕ) → AreEmptyWithin from to rows.old.items → AreEmptyWithin from to rows.new.items }
{
    let alloc = *rows.allocator();
    'each: while rows.len() <= number {
        rows.push(Vec::new(alloc))?;
    }
    Ok(())
}

/// Empties the rows from one on and below another, where all others are empty. They keep their memory.
fn empty_all(rows: &mut Vec<Vec<u32>>, from: usize, end: usize)
    requires within { (from ≤ end) × (end ≤ vec_len rows.old) }
    requires below { AreEmptyWithin 0 from rows.old.items }
    requires above { AreEmptyWithin end (vec_len rows.old) rows.old.items }
    ensures empty { AreEmpty rows.new.items }
    ensures len { vec_len rows.new ≡ vec_len rows.old }
{
    let mut at = from;
    'each: while at < end {
        rows[at].clear();
        at += 1;
    }
}

/// The first row from one on and below another that has a fact, or that other one.
fn next_row(rows: &[Vec<u32>], from: usize, end: usize) -> usize
    requires { (from ≤ end) × (end ≤ length rows.now) }
    ensures from { from ≤ result }
    ensures within { result ≤ end }
    ensures passed { AreEmptyWithin from result rows.now }
    ensures some { result < end → HasFact result rows.now }
{
    let mut at = from;
    'each: while at < end {
        if !rows[at].is_empty() {
            return at;
        }
        at += 1;
    }
    at
}

/// Facts with small numbers, in the rows of their numbers, a row below which none has a fact, and one from which on none
/// has. There are rows up to the greatest number that came. Contracts see the list of entries, in an order that says nothing.
#[derive(Drop)]
pub(crate) struct Places {
    rows: Vec<Vec<u32>>,
    least: usize,
    end: usize,
}

impl Model for Places {
    ghost use Rattle.std.specs.Prelude.{List};
    ghost use Rattle.mp_relaxed.specs.Places.{AreRows, place_entries};
    ghost use Rattle.mp_estimates.specs.Lowering.{Key};

    ghost Value = { List Key };

    ghost view = { place_entries };

    ghost invariant = { AreRows };
}

impl Places {
    /// Without facts. Takes no memory.
    pub(crate) fn new(alloc: Global) -> Places
        ensures { result ≡ [] }
    {
        Places {
            rows: Vec::new(alloc),
            least: 0,
            end: 0,
        }
    }

    /// Takes all entries away.
    pub(crate) fn clear(&mut self)
        ensures { self.new ≡ [] }
    {
        empty_all(&mut self.rows, self.least, self.end);
        self.least = 0;
        self.end = 0;
    }

    /// One more entry. Refuses only for want of memory.
    pub(crate) fn push(&mut self, number: usize, fact: u32) -> Result<(), OutOfMemory>
        requires { number < 1024 }
        ensures { OnOk result (IsPermutation (key number fact ∷ self.old) self.new) }
    {
        make_row(&mut self.rows, number)?;
        self.rows[number].push(fact)?;
        self.least = self.least.min(number);
        self.end = self.end.max(number + 1);
        Ok(())
    }

    /// Takes out an entry of the least number.
    #[inline(always)]
    pub(crate) fn pop(&mut self) -> Option<(u64, u32)>
        ensures entry { IfSome result (λ e. IsPermutation self.old (key e.0 e.1 ∷ self.new)) }
        ensures least { IfSome result (λ e. AreFrom e.0 self.old) }
        ensures small { IfSome result (λ e. e.0 < 1024) }
        ensures none { IfNone result ((self.old ≡ []) × (self.new ≡ [])) }
    {
        let least = next_row(self.rows.as_slice(), self.least, self.end);
        self.least = least;
        if least == self.end {
            return None;
        }
        let fact = self.rows[least].pop()?;
        Some((least as u64, fact))
    }
}
