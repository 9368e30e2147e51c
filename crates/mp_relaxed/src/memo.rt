//! The values of states that were asked for. States of a team that differ in what other agents keep to themselves are one
//! state here, so most that come have come before, and one that is forgotten is found once more.

ghost use Rattle.std.specs.Prelude.{◌≡◌, ◌<◌, ◌++◌, ◌∷◌, [], ℕ, All, Contains, IfNone, IfOk, IfSome, OnErr, OnOk, Option as Maybe, length};
ghost use Rattle.mp_rows.specs.Apart.{row_at, IsNew};
ghost use Rattle.mp_sets.specs.Numbers.{Numbers};
ghost use Rattle.mp_relaxed.specs.Memo.{HasNone, IsRight, with_room};
ghost use Rattle.mp_relaxed.specs.MemoFields.{state_row, HasSets};

use mp_list::OutOfMemory;
use mp_rows::Rows;
use mp_sets::Bits;
use std::alloc::Global;
use std::marker::Model;

/// How many values are kept: before there are more, all are let go.
const MOST: usize = 131_072;

/// States with their values, each once. Contracts see the list of them.
#[derive(Drop)]
pub struct Memo {
    alloc: Global,
    /// How many public and how many private facts there are.
    publics: u32,
    privates: u32,
    /// For each state the words of its public facts, and behind them those of its private ones.
    rows: Rows,
    /// The values of the states, in the same order.
    values: Vec<Option<u64>>,
}

impl Model for Memo {
    ghost use Rattle.mp_relaxed.specs.Memo.{MemoTable, memo_table_code};
    ghost use Rattle.mp_relaxed.specs.MemoFields.{memo_table, IsMemo};

    ghost Value = { MemoTable };

    ghost coded = { memo_table_code };

    ghost view = { memo_table };

    ghost invariant = { IsMemo };
}

impl Memo {
    /// Without values, for states of so many public and so many private facts. Takes no memory.
    pub fn new(alloc: Global, publics: u32, privates: u32) -> Memo
        ensures { result ≡ record { publics = publics; privates = privates; entries = [] } }
    {
        Memo {
            alloc,
            publics,
            privates,
            rows: Rows::new(alloc),
            values: Vec::new(alloc),
        }
    }

    /// The value of a state: none exactly where it is not kept. Takes no memory.
    pub fn recall(&self, publics: &Bits, privates: &Bits) -> Option<Option<u64>>
        requires publics { publics.now.size ≡ self.now.publics }
        requires privates { privates.now.size ≡ self.now.privates }
        ensures some { IfSome result (λ found. Contains self.now.entries (record {
          publics = publics.now.members;
          privates = privates.now.members;
          value = found;
        })) }
        ensures none { IfNone result (HasNone self.now.entries publics.now.members privates.now.members) }
        ensures right { (law : Numbers → Numbers → Maybe ℕ) → All (IsRight law) self.now.entries
            → IfSome result (λ found. found ≡ law publics.now.members privates.now.members) }
    {
        rows_have_sets(publics, privates);
        let Some(number) = find_row(&self.rows, publics, privates) else {
            return None;
        };
        Some(self.values[number])
    }

    /// Keeps the value of a state that is not kept. Refuses only for want of memory.
    pub fn remember(
        &mut self,
        publics: &Bits,
        privates: &Bits,
        value: Option<u64>,
    ) -> Result<(), OutOfMemory>
        requires publics { publics.now.size ≡ self.old.publics }
        requires privates { privates.now.size ≡ self.old.privates }
        requires new { HasNone self.old.entries publics.now.members privates.now.members }
        ensures kept { OnOk result (self.new ≡ record self.old {
          entries = with_room self.old.entries ++ record {
            publics = publics.now.members;
            privates = privates.now.members;
            value = value;
          } ∷ [];
        }) }
        ensures err { OnErr result (self.new ≡ record self.old { entries = with_room self.old.entries }) }
        ensures right { (law : Numbers → Numbers → Maybe ℕ) → All (IsRight law) self.old.entries
            → value ≡ law publics.now.members privates.now.members
            → All (IsRight law) self.new.entries }
    {
        rows_have_sets(publics, privates);
        make_room(self.alloc, &mut self.rows, &mut self.values);
        push_row(&mut self.rows, &mut self.values, publics, privates, value)?;
        Ok(())
    }
}

/// The row of a state has its sets.
fn rows_have_sets(publics: &Bits, privates: &Bits)
    ensures { HasSets publics.now.size privates.now.size publics.now.members privates.now.members }
{
    let _ = publics.words();
    let _ = privates.words();
}

/// The number of the row of a state: none exactly where it is not there.
fn find_row(rows: &Rows, publics: &Bits, privates: &Bits) -> Option<usize>
    ensures found { IfSome result (λ n. (n < length rows.now) × (row_at rows.now n
        ≡ state_row publics.now.size privates.now.size publics.now.members privates.now.members)) }
    ensures none { IfNone result
        (IsNew (state_row publics.now.size privates.now.size publics.now.members privates.now.members) rows.now) }
{
    rows.find(publics.words(), privates.words())
}

/// Lets all rows and values go where there are as many as are kept.
fn make_room(alloc: Global, rows: &mut Rows, values: &mut Vec<Option<u64>>)
    requires { length values.old.items ≡ length rows.old }
    ensures rows { rows.new ≡ with_room rows.old }
    ensures values { values.new.items ≡ with_room values.old.items }
{
    if values.len() < MOST {
        return;
    }
    *rows = Rows::new(alloc);
    values.clear();
}

/// Adds the row of a state, which is not there, and its value. For want of memory all stays as it was.
fn push_row(
    rows: &mut Rows,
    values: &mut Vec<Option<u64>>,
    publics: &Bits,
    privates: &Bits,
    value: Option<u64>,
) -> Result<(), OutOfMemory>
    requires { IsNew (state_row publics.now.size privates.now.size publics.now.members privates.now.members) rows.old }
    ensures rows { OnOk result (rows.new ≡ rows.old
        ++ state_row publics.now.size privates.now.size publics.now.members privates.now.members ∷ []) }
    ensures values { OnOk result (values.new.items ≡ values.old.items ++ value ∷ []) }
    ensures err { OnErr result ((rows.new ≡ rows.old) × (values.new.items ≡ values.old.items)) }
{
    values.reserve(1)?;
    rows.push(publics.words(), privates.words())?;
    values.push(value).unwrap();
    Ok(())
}
