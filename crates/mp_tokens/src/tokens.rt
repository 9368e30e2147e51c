//! A table of private sets and of the tokens that stand for them.

ghost use Rattle.std.specs.Prelude.{◌≡◌, ◌<◌, ◌≤◌, ◌∷◌, [], ◌↔◌, Contains, IfOk, OnErr, IsNone, IsSome, IfSome, length};
ghost use Rattle.mp_tokens.specs.Order.{set_at, place, with_set, AreDifferent};

use crate::sets::{add_set, find_set};
use indexmap::IndexSet;
use mp_list::OutOfMemory;
use mp_rows::Rows;
use mp_sets::{Bits, BitsView};
use std::alloc::Global;
use std::marker::Model;

/// The private sets that an agent met, and the tokens of those that it used in messages. Contracts see it
/// as the different sets in the order in which they were met, and the used ones in the order of their first
/// use. A set's index is its place among the former, its token its place among the latter. The initial set
/// has index 0 and token 0.
pub struct Tokens {
    alloc: Global,
    size: u32,
    /// The words of each set once; its place is its index.
    sets: Rows,
    /// The indices of the used sets; the place of an index is the token of its set.
    order: IndexSet<u64>,
}

impl Drop for Tokens {
    fn drop(self) {
        let Tokens {
            alloc: _,
            size: _,
            sets: _,
            order: _,
        } = self;
    }
}

impl Model for Tokens {
    ghost use Rattle.mp_tokens.specs.Table.{TokenTable, token_table_code};

    ghost Value = { TokenTable };

    ghost coded = { token_table_code };

    ghost use Rattle.mp_tokens.specs.TokenFields.{token_table, IsTable};

    ghost view = { token_table };

    ghost invariant = { IsTable };
}

impl Tokens {
    /// The table of an initial set alone.
    pub fn new(alloc: Global, start: Bits) -> Result<Tokens, OutOfMemory>
        ensures { IfOk result (λ made. made ≡ record {
          size = start.size;
          sets = start.members ∷ [];
          used = start.members ∷ [];
        }) }
    {
        let mut sets = Rows::new(alloc);
        add_set(&mut sets, &start)?;
        let mut order = IndexSet::new(alloc);
        order.insert(0)?;
        Ok(Tokens {
            alloc,
            size: start.size(),
            sets,
            order,
        })
    }

    /// The index of a set, which is added as the last one if it is new. The set has the size of the initial
    /// one. For want of memory the table stays as it was.
    pub fn intern(&mut self, set: Bits) -> Result<u64, OutOfMemory>
        requires { set.size ≡ self.old.size }
        ensures sets { IfOk result (λ _. self.new ≡ record self.old { sets = with_set self.old.sets set.members }) }
        ensures index { IfOk result (λ index. index ≡ place self.new.sets set.members) }
        ensures there { IfOk result (λ index. index < length self.new.sets
            × (set_at self.new.sets index ≡ set.members)) }
        ensures err { OnErr result (self.new ≡ self.old) }
    {
        self.intern_copy(&set)
    }

    /// The index of a set by what is lent of it: its words are kept where it is new. In all else it is as `intern`.
    pub fn intern_copy(&mut self, set: &Bits) -> Result<u64, OutOfMemory>
        requires { set.now.size ≡ self.old.size }
        ensures sets { IfOk result (λ _. self.new ≡ record self.old { sets = with_set self.old.sets set.now.members }) }
        ensures index { IfOk result (λ index. index ≡ place self.new.sets set.now.members) }
        ensures there { IfOk result (λ index. index < length self.new.sets
            × (set_at self.new.sets index ≡ set.now.members)) }
        ensures err { OnErr result (self.new ≡ self.old) }
    {
        match find_set(&self.sets, set) {
            Some(index) => Ok(index as u64),
            None => {
                let index = self.sets.len();
                add_set(&mut self.sets, set)?;
                Ok(index as u64)
            }
        }
    }

    /// The index of a set of the size of the initial one: none exactly where it was not met. It takes no
    /// memory.
    pub fn index_of(&self, set: &Bits) -> Option<u64>
        requires { set.now.size ≡ self.now.size }
        ensures found { IsSome result ↔ Contains self.now.sets set.now.members }
        ensures index { IfSome result (λ index. index ≡ place self.now.sets set.now.members) }
        ensures there { IfSome result (λ index. index < length self.now.sets
            × (set_at self.now.sets index ≡ set.now.members)) }
    {
        let Some(index) = find_set(&self.sets, set) else {
            return None;
        };
        Some(index as u64)
    }

    /// The token of the set with an index, which gets the next one if it has none. For want of memory the
    /// table stays as it was.
    pub fn token_of(&mut self, index: u64) -> Result<u64, OutOfMemory>
        requires { index < length self.old.sets }
        ensures used { IfOk result (λ _. self.new
            ≡ record self.old { used = with_set self.old.used (set_at self.old.sets index) }) }
        ensures token { IfOk result (λ token. token ≡ place self.new.used (set_at self.old.sets index)) }
        ensures there { IfOk result (λ token. token < length self.new.used
            × (set_at self.new.used token ≡ set_at self.old.sets index)) }
        ensures err { OnErr result (self.new ≡ self.old) }
    {
        let (token, _) = self.order.insert_full(index)?;
        Ok(token as u64)
    }

    /// The index of the set with a token: none exactly where no set has it.
    pub fn set_of(&self, token: u64) -> Option<u64>
        ensures none { IsNone result ↔ (length self.now.used ≤ token) }
        ensures some { IfSome result (λ index. index < length self.now.sets
            × (set_at self.now.sets index ≡ set_at self.now.used token)) }
        ensures different { AreDifferent self.now.sets }
    {
        self.order.get_index(token as usize).copied()
    }

    /// The set with an index.
    pub fn set(&self, index: u64) -> BitsView<'_>
        requires { index < length self.now.sets }
        ensures { result ≡ record { size = self.now.size; members = set_at self.now.sets index } }
    {
        BitsView::new(self.alloc, self.size, self.sets.row(index as usize))
    }
}
