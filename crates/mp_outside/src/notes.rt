//! What a source in memory notes of what is done at it.

ghost use Rattle.std.specs.Prelude.{◌≡◌, ◌++◌, ◌∷◌, [], true, false, vec_items};

use std::alloc::Global;

/// The file at a place was begun, or a read took so many bytes.
#[derive(Clone, Copy)]
pub enum Note {
    Began(usize),
    Took(usize),
}

/// Notes, one after another. From the first one on for which there is no memory none is taken.
#[derive(Drop)]
pub struct Notes {
    pub notes: Vec<Note>,
    /// None is missing.
    pub whole: bool,
}

impl Notes {
    /// No note yet.
    pub(crate) fn new(alloc: Global) -> Notes
        ensures notes { result.notes.items ≡ [] }
        ensures whole { result.whole ≡ true }
    {
        Notes {
            notes: Vec::new(alloc),
            whole: true,
        }
    }

    /// Takes one more note, as long as there is memory.
    pub(crate) fn add(&mut self, note: Note)
        ensures missing { self.old.whole ≡ false → self.new.whole ≡ false }
        ensures added { self.new.whole ≡ true → self.new.notes.items ≡ self.old.notes.items ++ note ∷ [] }
    {
        if self.whole && self.notes.push(note).is_err() {
            self.whole = false;
        }
    }
}
