//! Why a factor was not accepted.

ghost use Rattle.std.specs.Prelude.{◌≡◌};
ghost use Rattle.mp_typing.specs.declared.refusal.CheckRefusal.TheVariants.{OutOfMemory as MemoryRefusal};

use mp_forms::File;
use mp_list::OutOfMemory;
use mp_sexp::{Name, Place};
use std::alloc::{AllocError, AllocFailed};
use thiserror::Error;

/// A word that is at fault: the file and place where it stands, and its name.
#[derive(Debug, Drop)]
pub struct Found {
    pub file: File,
    /// Where its first byte stands.
    pub at: Place,
    pub name: Name,
}

/// Why a factor is refused: the fault that no other comes before.
#[derive(Debug, Drop, Error)]
pub enum CheckRefusal {
    /// The problem names another domain.
    #[error("domain")]
    WrongDomain(Found),
    /// A predicate, function, object or variable is used and not declared.
    #[error("unknown")]
    UnknownName(Found),
    /// An atom or function has another number of terms than declared.
    #[error("arity")]
    Arity(Found),
    /// A name is declared a second time.
    #[error("twice")]
    Twice(Found),
    /// No memory was left.
    #[error("out of memory")]
    OutOfMemory,
}

impl From<OutOfMemory> for CheckRefusal {
    ghost from_gives = { λ _ e. e ≡ MemoryRefusal };

    fn from(_e: OutOfMemory) -> CheckRefusal {
        CheckRefusal::OutOfMemory
    }
}

impl From<AllocError> for CheckRefusal {
    ghost from_gives = { λ _ e. e ≡ MemoryRefusal };

    fn from(_e: AllocError) -> CheckRefusal {
        CheckRefusal::OutOfMemory
    }
}

impl<T: Drop> From<AllocFailed<T>> for CheckRefusal {
    ghost from_gives = { λ _ e. e ≡ MemoryRefusal };

    fn from(_e: AllocFailed<T>) -> CheckRefusal {
        CheckRefusal::OutOfMemory
    }
}
