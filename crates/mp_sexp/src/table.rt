//! A table of names with numbers.

ghost use Rattle.std.specs.Prelude.{◌≡◌, ◌++◌, ◌∷◌, [], ℕ, List as ListOf, length, map, IfOk, OnErr, OnOk, slice_get};
ghost use Rattle.std.specs.Option.{option_map};
ghost use Rattle.mp_sexp.specs.Numbers.{is_named, number_in, place_in};
ghost use Rattle.mp_sexp.specs.Tables.{HasPlaces};

use crate::name::Name;
use mp_list::OutOfMemory;
use std::alloc::Global;
use std::collections::HashMap;
use std::marker::Model;

/// Borrowed names, one after another. The number of a name is the place, from 0, at which it stands first. Contracts
/// see it as the list of the names.
#[derive(Drop)]
pub struct NameTable<'a> {
    names: Vec<&'a Name>,
    /// For each name the place at which it stands first.
    first: HashMap<&'a [u8], usize>,
}

impl<'a> Model for NameTable<'a> {
    ghost use Rattle.std.specs.Prelude.{ℕ, List, map};
    ghost use Rattle.mp_sexp.specs.Tables.{HasPlaces};

    ghost Value = { List (List ℕ) };

    ghost view = { λ t. map (λ n. n.now) t.names.items };

    ghost invariant = { λ t. HasPlaces (λ k. k.now) t.first.entries (map (λ n. n.now) t.names.items) };
}

impl<'a> NameTable<'a> {
    /// The table without names, which takes no memory yet.
    pub fn new(alloc: Global) -> NameTable<'a>
        ensures { result ≡ [] }
    {
        NameTable {
            names: Vec::new(alloc),
            first: HashMap::new(alloc),
        }
    }

    /// Adds a name at the end. For want of memory the table stays as it was.
    pub fn push(&mut self, name: &'a Name) -> Result<(), OutOfMemory>
        ensures added { OnOk result (self.new ≡ self.old ++ name.now ∷ []) }
        ensures kept { OnErr result (self.new ≡ self.old) }
    {
        let place = self.len();
        self.names.push(name)?;
        if let Err(failed) = keep_place(&mut self.first, name.as_slice(), place) {
            self.names.pop();
            return Err(failed);
        }
        Ok(())
    }

    /// Adds names at the end, one after another. For want of memory the table may have some of them.
    pub fn push_all(&mut self, names: &'a [Name]) -> Result<(), OutOfMemory>
        ensures { OnOk result (self.new ≡ self.old ++ names.now) }
    {
        for name in names {
            self.push(name)?;
        }
        Ok(())
    }

    /// The table of these names.
    pub fn of(alloc: Global, names: &'a [Name]) -> Result<NameTable<'a>, OutOfMemory>
        ensures { IfOk result (λ table. table ≡ names.now) }
    {
        let mut table = NameTable::new(alloc);
        table.push_all(names)?;
        Ok(table)
    }

    /// How many names there are.
    pub fn len(&self) -> usize
        ensures { result ≡ length self.now }
    {
        self.names.len()
    }

    /// The place, from 0, at which a name stands first: none where it is not there. It takes no memory.
    pub fn find(&self, name: &[u8]) -> Option<usize>
        ensures { result ≡ place_in self.now name.now }
    {
        if self.names.is_empty() {
            return None;
        }
        self.first.get(name).copied()
    }

    /// The number of a name: their count where it is not there. It takes no memory.
    #[tactic(auto, unfolding(crate::specs::Numbers::number_in))]
    pub fn number(&self, name: &Name) -> usize
        ensures { result ≡ number_in self.now name.now }
    {
        match self.find(name.as_slice()) {
            Some(place) => place,
            None => self.len(),
        }
    }

    /// Whether a name is there. It takes no memory.
    pub fn contains(&self, name: &Name) -> bool
        ensures { result ≡ is_named self.now name.now }
    {
        !self.names.is_empty() && self.first.contains_key(name.as_slice())
    }

    /// The names.
    pub fn as_slice(&self) -> &[&'a Name]
        ensures { map (λ n. n.now) result.now ≡ self.now }
    {
        self.names.as_slice()
    }

    /// The name at a place: none exactly where the place is not below their count.
    pub fn name(&self, place: usize) -> Option<&'a Name>
        ensures { option_map (λ n. n.now) result ≡ slice_get self.now place }
    {
        self.names.get(place).copied()
    }
}

/// Keeps the place of a name, where none is kept of it yet. Most names are new, and a name is then hashed once. For want
/// of memory the map stays as it was.
fn keep_place<'a>(
    first: &mut HashMap<&'a [u8], usize>,
    name: &'a [u8],
    place: usize,
) -> Result<(), OutOfMemory>
    ensures added { OnOk result ((names : ListOf (ListOf ℕ)) → place ≡ length names
        → HasPlaces (λ k. k.now) first.old.entries names → HasPlaces (λ k. k.now) first.new.entries (names ++ name.now ∷ [])) }
    ensures kept { OnErr result (first.new.entries ≡ first.old.entries) }
{
    if let Some(earlier) = first.insert(name, place)? {
        first.insert(name, earlier)?;
    }
    Ok(())
}
