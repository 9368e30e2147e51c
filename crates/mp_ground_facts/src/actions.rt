//! The numbers of what actions with objects need, add and delete.

ghost use Rattle.std.specs.Prelude.{◌≡◌, ◌≤◌, [], length, OnOk};
ghost use Rattle.mp_ground_facts.specs.Touched.{needed, added, deleted, of_place};
ghost use Rattle.mp_ground_facts.specs.Numbers.{numbered};

use crate::fact::GroundFact;
use crate::handing::{Binding, hand_added, hand_deleted, hand_needed};
use crate::numbers::FactNumbers;
use indexmap::IndexSet;
use mp_list::OutOfMemory;
use std::alloc::Global;

/// The numbers of what one action needs, adds and deletes, in memory that serves for the next one,
/// too.
#[derive(Drop)]
pub struct ActionNumbers<'a> {
    /// What has to be true.
    pub pre: FactNumbers<'a>,
    /// What it makes true.
    pub add: FactNumbers<'a>,
    /// What it makes false, unless it also makes it true.
    pub del: FactNumbers<'a>,
}

impl<'a> ActionNumbers<'a> {
    /// No numbers of these facts, which take no memory yet.
    pub fn new(alloc: Global, facts: &'a IndexSet<GroundFact>) -> ActionNumbers<'a>
        requires { length facts.now.keys ≤ 65535 }
        ensures pre { result.pre ≡ numbered facts.now.keys [] }
        ensures add { result.add ≡ numbered facts.now.keys [] }
        ensures del { result.del ≡ numbered facts.now.keys [] }
    {
        ActionNumbers {
            pre: FactNumbers::new(alloc, facts),
            add: FactNumbers::new(alloc, facts),
            del: FactNumbers::new(alloc, facts),
        }
    }

    /// The numbers of what the action at a place needs, adds and deletes with these objects: none where there is no
    /// such action. What `scratch` has is lost.
    #[tactic(auto, using(crate::proofs::NumberedAll::number_steps))]
    pub fn number(
        &mut self,
        scratch: &mut Vec<u32>,
        binding: Binding<'_>,
        action: usize,
    ) -> Result<(), OutOfMemory>
        ensures pre { OnOk result (self.new.pre ≡ numbered self.old.pre.facts
            (of_place binding.entry.factor.now needed action binding.entry.objects.now)) }
        ensures add { OnOk result (self.new.add ≡ numbered self.old.add.facts
            (of_place binding.entry.factor.now added action binding.entry.objects.now)) }
        ensures del { OnOk result (self.new.del ≡ numbered self.old.del.facts
            (of_place binding.entry.factor.now deleted action binding.entry.objects.now)) }
    {
        self.pre.clear();
        self.add.clear();
        self.del.clear();
        let Some(lifted) = binding.factor.actions.get(action) else {
            return Ok(());
        };
        hand_needed(&mut self.pre, scratch, binding, lifted)?;
        hand_added(&mut self.add, scratch, binding, lifted)?;
        hand_deleted(&mut self.del, scratch, binding, lifted)
    }
}
