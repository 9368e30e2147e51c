//! What stands for the parameters of actions, in little memory.

ghost use Rattle.std.specs.Prelude.{◌≡◌, ◌++◌, ◌∷◌, ◌<◌, [], length, option_map, slice_index_or, slice_get, Some, OnOk, OnErr};
ghost use Rattle.mp_lifted.specs.Bound.{binding};

use crate::bound::BoundAction;
use mp_list::{OutOfMemory, does_not_fit, to_u32};
use std::alloc::Global;
use std::marker::Model;

/// What a binding has beside its objects.
#[derive(Clone, Copy)]
struct Head {
    /// The place of the action in its factor, from 0.
    action: u32,
    /// Where the objects begin among those of all bindings.
    start: u32,
    /// Where they end there.
    end: u32,
    cost: u64,
}

/// Bindings, in the order of actions and then of objects. Contracts see the list of them. A binding of three objects takes
/// 36 bytes, and no memory of its own.
#[derive(Drop)]
pub struct ActionBindingList {
    heads: Vec<Head>,
    /// The objects of one binding after another.
    objects: Vec<u32>,
}

impl Model for ActionBindingList {
    ghost use Rattle.std.specs.Prelude.{List};
    ghost use Rattle.mp_lifted.specs.Binding.{ActionBinding};

    ghost Value = { List ActionBinding };

    ghost use Rattle.mp_lifted.specs.Flat.{bindings, IsFlat};

    ghost view = { bindings };

    ghost invariant = { IsFlat };
}

impl ActionBindingList {
    /// No bindings, which take no memory yet.
    pub fn new(alloc: Global) -> ActionBindingList
        ensures { result ≡ [] }
    {
        ActionBindingList {
            heads: Vec::new(alloc),
            objects: Vec::new(alloc),
        }
    }

    /// Adds a binding at the end. For want of memory the list stays as it was, and so it does where a number does not fit 32
    /// bits, which is taken for want of memory.
    pub fn push(&mut self, action: usize, objects: &[u32], cost: u64) -> Result<(), OutOfMemory>
        ensures ok { OnOk result (self.new
            ≡ self.old ++ record { action = action; objects = objects.now; cost = cost } ∷ []) }
        ensures err { OnErr result (self.new ≡ self.old) }
    {
        let action = to_u32(action)?;
        let before = self.objects.len();
        let Some(behind) = before.checked_add(objects.len()) else {
            return Err(does_not_fit());
        };
        let start = to_u32(before)?;
        let end = to_u32(behind)?;
        self.heads.reserve(1)?;
        self.objects.extend_from_slice(objects)?;
        let head = Head {
            action,
            start,
            end,
            cost,
        };
        self.heads.push(head).unwrap();
        Ok(())
    }

    /// The number of bindings.
    pub fn len(&self) -> usize
        ensures { result ≡ length self.now }
    {
        self.heads.len()
    }

    /// The binding at a place, counted from 0: none exactly where the list is not longer than that.
    pub fn get(&self, at: usize) -> Option<BoundAction<'_>>
        ensures { option_map binding result ≡ slice_get self.now at }
    {
        if at < self.heads.len() {
            Some(self.at(at))
        } else {
            None
        }
    }

    /// The binding at a place of the list, counted from 0.
    pub fn at(&self, at: usize) -> BoundAction<'_>
        requires { at < length self.now }
        ensures found { slice_get self.now at ≡ Some (binding result) }
        ensures read { binding result ≡ slice_index_or self.now at (binding result) }
    {
        let head = self.heads[at];
        BoundAction {
            action: head.action as usize,
            objects: &self.objects[head.start as usize..head.end as usize],
            cost: head.cost,
        }
    }
}
