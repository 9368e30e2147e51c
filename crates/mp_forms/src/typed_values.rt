//! Types, objects and parameters as they are declared.

use crate::word::{Word, WordList};
use mp_list::List;

/// A type, an object or a parameter as it is declared.
pub struct Typed {
    /// The name, or the variable with its `?`.
    pub word: Word,
    /// The types of which it is one; none where none is written, which means `object`.
    pub types: WordList,
    /// Whether it stands in a private block.
    pub private: bool,
}

impl Drop for Typed {
    fn drop(self) {
        let Typed {
            word: _,
            types: _,
            private: _,
        } = self;
    }
}

/// Typed names or variables in the order of the file.
pub type TypedList = List<Typed>;
