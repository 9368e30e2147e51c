//! What may be wrong in a tree.

use mp_sexp::{Name, Place};

/// What is wrong with a word or list.
#[derive(Clone, Copy, Debug, PartialEq, Eq)]
pub enum FaultKind {
    /// It has no place in the shape of the file, or lacks something.
    Shape,
    /// It begins something that is not supported.
    Unsupported,
    /// It is a parameter behind the twelfth of its action.
    Parameters,
    /// It is no cost that is allowed, or an increase behind the sixteenth of its action.
    Cost,
}

/// Something that is wrong, the place of the word or list, and the word where it is not supported.
#[derive(Drop)]
pub struct Fault {
    pub place: Place,
    pub kind: FaultKind,
    /// The word that is not supported; a fault of another kind has none.
    pub word: Name,
}
