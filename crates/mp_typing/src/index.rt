//! Names that are looked up, each with a number.

ghost use Rattle.std.specs.Prelude.{◌≡◌, ◌++◌, ◌∷◌, [], not, is_some, IfOk, OnOk};
ghost use Rattle.mp_typing.specs.Indexed.{number_of, SameNumbers};

use mp_list::{Copied, OutOfMemory};
use mp_sexp::Name;
use std::alloc::Global;
use std::collections::HashMap;
use std::marker::Model;

/// Names, each with a number. Contracts see it as a list of entries, in no order that is told.
#[derive(Drop)]
pub struct Index {
    /// The number that was added first with each name.
    first: HashMap<Name, usize>,
}

impl Model for Index {
    ghost use Rattle.std.specs.Prelude.{List, map};
    ghost use Rattle.mp_typing.specs.Indexed.{Entry};

    ghost Value = { List Entry };

    ghost view = { λ i. map (λ e. record { name = e.0; number = e.1 }) i.first.entries };
}

impl Index {
    /// The empty index, with memory for this many names. Refuses only for want of memory.
    pub fn with_capacity(alloc: Global, capacity: usize) -> Result<Index, OutOfMemory>
        ensures { IfOk result (λ index. index ≡ []) }
    {
        Ok(Index {
            first: HashMap::with_capacity(alloc, capacity)?,
        })
    }

    /// Adds a name with its number, behind those that were added before, and tells whether the name is new. Refuses
    /// only for want of memory.
    pub fn add(&mut self, name: &Name, number: usize) -> Result<bool, OutOfMemory>
        ensures new { IfOk result (λ is_new. is_new ≡ not (is_some (number_of name.now self.old))) }
        ensures added { OnOk result (SameNumbers self.new (self.old ++ record { name = name.now; number = number } ∷ [])) }
    {
        // Most names are new, and a name is then hashed once.
        match self.first.insert(name.copy()?, number)? {
            None => Ok(true),
            Some(first) => {
                self.first.insert(name.copy()?, first)?;
                Ok(false)
            }
        }
    }

    /// The number that was added first with this name: none exactly where the name was not added.
    pub fn find(&self, name: &Name) -> Option<usize>
        ensures { result ≡ number_of name.now self.now }
    {
        self.first.get(name).copied()
    }
}
