//! Predicates and functions as they are declared.

use crate::typed_values::TypedList;
use crate::word::Word;
use mp_list::List;

/// A predicate or a function as it is declared.
pub struct Signature {
    pub word: Word,
    /// Its variables and their types, which restrict nothing.
    pub params: TypedList,
    /// Whether it stands in a private block.
    pub private: bool,
}

impl Drop for Signature {
    fn drop(self) {
        let Signature {
            word: _,
            params: _,
            private: _,
        } = self;
    }
}

/// Signatures in the order of the file.
pub type SignatureList = List<Signature>;
