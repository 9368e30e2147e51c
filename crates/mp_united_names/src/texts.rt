//! Sets of texts.

use mp_list::OutOfMemory;
use std::alloc::Global;
use std::collections::HashSet;

/// A set of borrowed texts.
#[derive(Drop)]
pub struct TextSet<'a> {
    texts: HashSet<&'a [u8]>,
}

impl<'a> TextSet<'a> {
    /// The empty set, which takes no memory yet.
    pub fn new(alloc: Global) -> TextSet<'a> {
        TextSet {
            texts: HashSet::new(alloc),
        }
    }

    /// Adds a text, and tells whether it is new.
    pub fn insert(&mut self, text: &'a [u8]) -> Result<bool, OutOfMemory> {
        Ok(self.texts.insert(text)?)
    }

    /// Whether a text is a member.
    pub fn contains(&self, text: &[u8]) -> bool {
        self.texts.contains(text)
    }
}
