//! The numbers of facts that are met one after another.

ghost use Rattle.std.specs.Prelude.{◌≡◌, ◌≤◌, [], length};
ghost use Rattle.mp_ground_facts.specs.Numbers.{numbered, with_number};

use crate::fact::GroundFact;
use crate::key::FactKey;
use crate::takes::TakesFacts;
use indexmap::IndexSet;
use mp_list::OutOfMemory;
use std::alloc::Global;
use std::marker::Model;

/// The numbers of some facts: their places among all of a factor.
#[derive(Drop)]
pub struct FactNumbers<'a> {
    facts: &'a IndexSet<GroundFact>,
    numbers: Vec<u32>,
}

impl<'a> Model for FactNumbers<'a> {
    ghost use Rattle.std.specs.Prelude.{◌≤◌, length};
    ghost use Rattle.mp_ground_facts.specs.Numbers.{Numbers};

    ghost Value = { Numbers };

    ghost view = { λ n. record { facts = n.facts.now.keys; numbers = n.numbers.items } };

    ghost invariant = { λ n. length n.facts.now.keys ≤ 65535 };
}

impl<'a> FactNumbers<'a> {
    /// No numbers, which take no memory yet.
    pub fn new(alloc: Global, facts: &'a IndexSet<GroundFact>) -> FactNumbers<'a>
        requires { length facts.now.keys ≤ 65535 }
        ensures { result ≡ numbered facts.now.keys [] }
    {
        FactNumbers {
            facts,
            numbers: Vec::new(alloc),
        }
    }

    /// The numbers.
    pub fn as_slice(&self) -> &[u32]
        ensures { result.now ≡ self.now.numbers }
    {
        self.numbers.as_slice()
    }

    /// Lets the numbers go, and keeps their memory.
    pub fn clear(&mut self)
        ensures { self.new ≡ numbered self.old.facts [] }
    {
        self.numbers.clear();
    }
}

impl<'a> TakesFacts for FactNumbers<'a> {
    ghost after = { with_number };

    #[tactic(auto, using(mp_lifted::proofs::Found::found_at, mp_lifted::proofs::Found::found_nowhere))]
    fn take(&mut self, key: FactKey<'_>) -> Result<(), OutOfMemory> {
        let number = match self.facts.get_index_of(key) {
            Some(number) => number as u32,
            None => self.facts.len() as u32,
        };
        self.numbers.push(number)?;
        Ok(())
    }
}
