//! Why a text was not read.

ghost use Rattle.std.specs.Prelude.{◌≡◌};
ghost use Rattle.mp_sexp.specs.declared.refusal.ReadRefusal.TheVariants.{OutOfMemory as MemoryRefusal};

use crate::tree::Place;
use mp_list::OutOfMemory;
use std::alloc::{AllocError, AllocFailed};
use thiserror::Error;

/// Why a text has no tree: the first fault from its left, with its place.
#[derive(Clone, Copy, Debug, PartialEq, Eq, Error)]
pub enum ReadRefusal {
    /// A byte outside a comment is neither space, bracket, `;` nor a byte of a word.
    #[error("char")]
    Char(Place),
    /// The text ends before its list is closed, or something else stands before it.
    #[error("unbalanced")]
    Unbalanced(Place),
    /// A word or bracket follows the closed list.
    #[error("trailing")]
    Trailing(Place),
    /// A bracket would be the 101st open one.
    #[error("deep")]
    Deep(Place),
    /// No memory was left.
    #[error("out of memory")]
    OutOfMemory,
}

impl From<OutOfMemory> for ReadRefusal {
    ghost from_gives = { λ _ e. e ≡ MemoryRefusal };

    fn from(_e: OutOfMemory) -> ReadRefusal {
        ReadRefusal::OutOfMemory
    }
}

impl From<AllocError> for ReadRefusal {
    ghost from_gives = { λ _ e. e ≡ MemoryRefusal };

    fn from(_e: AllocError) -> ReadRefusal {
        ReadRefusal::OutOfMemory
    }
}

impl<T: Drop> From<AllocFailed<T>> for ReadRefusal {
    ghost from_gives = { λ _ e. e ≡ MemoryRefusal };

    fn from(_e: AllocFailed<T>) -> ReadRefusal {
        ReadRefusal::OutOfMemory
    }
}
