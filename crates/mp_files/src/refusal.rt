//! Why the files of a team are refused.

use mp_forms::File;
use mp_list::OutOfMemory;
use mp_sexp::{Name, Place};
use thiserror::Error;

/// One of the files of a team.
#[derive(Clone, Copy, Debug, PartialEq, Eq)]
pub struct FileOf {
    /// The agent whose file it is, counted from 0.
    pub agent: usize,
    /// Which of its two files.
    pub file: File,
}

/// What is wrong with a file.
#[derive(Debug, Drop)]
pub enum Fault {
    /// A byte outside a comment is none of a text's bytes.
    Char,
    /// The text ends before its list is closed, or something else stands before the list.
    Unbalanced,
    /// A word or bracket follows the closed list.
    Trailing,
    /// A bracket is the 101st open one.
    Deep,
    /// A word or list has no place in the shape of the file, or lacks something.
    Shape,
    /// This word begins something that is not supported.
    Unsupported(Name),
    /// A parameter is the thirteenth of its action.
    Parameters,
    /// A number or an increase is no cost that is allowed.
    Cost,
    /// The problem belongs to the domain of this name, which is another one.
    WrongDomain(Name),
    /// This name is used and not declared.
    Unknown(Name),
    /// What has this name is applied to another number of terms than declared.
    Arity(Name),
    /// This name is declared a second time.
    Twice(Name),
}

/// Why the files of a team are refused.
#[derive(Debug, Drop, Error)]
pub enum Refusal {
    /// The file is not held, or reading it failed.
    #[error("read")]
    Read(FileOf),
    /// The file has more than 4,194,304 bytes.
    #[error("too large")]
    TooLarge(FileOf),
    /// The file has a fault, the first one at this place of it.
    #[error("fault")]
    Fault(FileOf, Fault, Place),
    /// No memory was left.
    #[error("out of memory")]
    OutOfMemory,
}

impl From<OutOfMemory> for Refusal {
    ghost use Rattle.std.specs.Prelude.{◌≡◌};
    ghost use Rattle.mp_files.specs.declared.refusal.Refusal.TheVariants as refusals;

    ghost from_gives = { λ _ e. e ≡ refusals.OutOfMemory };

    fn from(_e: OutOfMemory) -> Refusal {
        Refusal::OutOfMemory
    }
}
