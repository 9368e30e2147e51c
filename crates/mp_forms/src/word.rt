//! Words as a factor keeps them: a name and where it stands.

use mp_list::{Copied, OutOfMemory, SmallList};
use mp_sexp::{Name, Place};

/// A word of a file, a variable's `?` included, and the place of its first byte.
#[derive(Drop)]
pub struct Word {
    /// The word's bytes, folded to lower case.
    pub name: Name,
    pub at: Place,
}

/// Words in the order of the file. Most types are one word, which takes no memory beside its list.
pub type WordList = SmallList<Word>;

impl Copied for Word {
    fn copy(&self) -> Result<Word, OutOfMemory> {
        Ok(Word {
            name: self.name.copy()?,
            at: self.at,
        })
    }
}
