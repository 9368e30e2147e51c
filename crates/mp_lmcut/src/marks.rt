//! Facts that are marked, and those of them that are still to be followed.

ghost use Rattle.std.specs.Prelude.{◌≡◌, ◌++◌, ◌∷◌, ◌<◌, [], ℕ, true, false, All, IfNone, IfSome, OnOk, length, slice_set};
ghost use Rattle.mp_lmcut.specs.Marked.{HasGrown, is_marked};

use mp_list::OutOfMemory;
use std::alloc::Global;
use std::marker::Model;

/// A mark for each fact, and a list of marked facts from which what they lead to is still to be marked.
#[derive(Drop)]
pub(crate) struct Marks {
    flags: Vec<bool>,
    todo: Vec<u32>,
}

impl Model for Marks {
    ghost use Rattle.mp_lmcut.specs.Marks.{MarkLists, mark_lists};

    ghost Value = { MarkLists };

    ghost view = { mark_lists };
}

impl Marks {
    /// For no facts.
    pub(crate) fn new(alloc: Global) -> Marks {
        Marks {
            flags: Vec::new(alloc),
            todo: Vec::new(alloc),
        }
    }

    /// Begins anew for this many facts, without marks. Refuses only for want of memory.
    pub(crate) fn begin(&mut self, facts: u32) -> Result<(), OutOfMemory>
        ensures none { OnOk result (All (λ b. b ≡ false) self.new.flags) }
        ensures todo { OnOk result (self.new.todo ≡ []) }
        ensures len { OnOk result (length self.new.flags ≡ facts) }
    {
        self.flags.resize(facts as usize, false)?;
        self.flags.as_mut_slice().fill(false);
        self.todo.clear();
        Ok(())
    }

    /// Whether a fact is marked.
    pub(crate) fn has(&self, x: u32) -> bool
        requires { x < length self.now.flags }
        ensures { result ≡ is_marked self.now.flags x }
    {
        self.flags[x as usize]
    }

    /// Marks a fact, and puts it among those to do where it is new. Refuses only for want of memory.
    fn add(&mut self, x: u32) -> Result<(), OutOfMemory>
        requires { x < length self.old.flags }
        ensures known { is_marked self.old.flags x ≡ true → OnOk result (self.new ≡ self.old) }
        ensures new { is_marked self.old.flags x ≡ false → OnOk result
            (self.new ≡ record { flags = slice_set self.old.flags x true; todo = self.old.todo ++ x ∷ [] }) }
    {
        if !self.flags[x as usize] {
            self.todo.push(x)?;
            self.flags[x as usize] = true;
        }
        Ok(())
    }

    /// Marks a fact.
    pub(crate) fn mark(&mut self, x: u32) -> Result<(), OutOfMemory>
        requires { x < length self.old.flags }
        ensures grown { OnOk result (HasGrown (λ y. y ≡ x) self.old self.new) }
        ensures here { OnOk result (is_marked self.new.flags x ≡ true) }
    {
        self.add(x)?;
        Ok(())
    }

    /// Takes a fact from those to do.
    pub(crate) fn next(&mut self) -> Option<u32>
        ensures flags { self.new.flags ≡ self.old.flags }
        ensures some { IfSome result (λ x. self.old.todo ≡ self.new.todo ++ x ∷ []) }
        ensures none { IfNone result (self.old.todo ≡ []) }
    {
        self.todo.pop()
    }
}
