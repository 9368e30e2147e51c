//! Sets of names.

ghost use Rattle.std.specs.Prelude.{◌≡◌, ◌∷◌, [], not, IfOk, OnOk};
ghost use Rattle.mp_typing.specs.Names.{is_among, SameNames};

use mp_list::OutOfMemory;
use mp_sexp::Name;
use std::alloc::Global;
use std::collections::HashSet;
use std::marker::Model;

/// A set of borrowed names. Contracts see it as a list of its members, in no order that is told.
#[derive(Drop)]
pub struct NameSet<'a> {
    names: HashSet<&'a [u8]>,
}

impl<'a> Model for NameSet<'a> {
    ghost use Rattle.std.specs.Prelude.{ℕ, List, map};

    ghost Value = { List (List ℕ) };

    ghost view = { λ s. map (λ name. name.now) s.names.keys };
}

impl<'a> NameSet<'a> {
    /// The empty set, which takes no memory yet.
    pub fn new(alloc: Global) -> NameSet<'a>
        ensures { result ≡ [] }
    {
        NameSet {
            names: HashSet::new(alloc),
        }
    }

    /// Adds a name, and tells whether it is new.
    pub fn insert(&mut self, name: &'a Name) -> Result<bool, OutOfMemory>
        ensures added { IfOk result (λ added. added ≡ not (is_among self.old name.now)) }
        ensures members { OnOk result (SameNames self.new (name.now ∷ self.old)) }
    {
        Ok(self.names.insert(name.as_slice())?)
    }

    /// Whether a name is a member.
    pub fn contains(&self, name: &[u8]) -> bool
        ensures { result ≡ is_among self.now name.now }
    {
        self.names.contains(name)
    }
}
