//! What is wrong in a factor, and which of two faults comes first.

ghost use Rattle.std.specs.Prelude.{◌≡◌, ◌∷◌, [], IfOk};
ghost use Rattle.mp_typing.specs.Faults.{is_earlier, leftmost, fault_at, order_by, file_rank_of, stage_of, rank_of};

use crate::refusal::Found;
use mp_forms::{File, Word};
use mp_list::{Copied, OutOfMemory};
use mp_sexp::Place;

/// What is wrong with a word.
#[derive(Clone, Copy, Debug, PartialEq, Eq)]
pub enum FaultKind {
    /// It is not the domain's name.
    WrongDomain,
    /// It is used and not declared.
    Unknown,
    /// It has another number of terms than declared.
    Arity,
    /// It is declared a second time.
    Twice,
}

/// A word that is at fault, and why.
#[derive(Drop)]
pub struct Fault {
    pub kind: FaultKind,
    pub found: Found,
}

/// A wrong domain comes before all else.
fn stage(kind: FaultKind) -> u32
    ensures { result ≡ stage_of kind }
{
    match kind {
        FaultKind::WrongDomain => 0,
        FaultKind::Unknown | FaultKind::Arity | FaultKind::Twice => 1,
    }
}

/// Which file is read first.
fn file_rank(file: File) -> u32
    ensures { result ≡ file_rank_of file }
{
    match file {
        File::Domain => 0,
        File::Problem => 1,
    }
}

/// Which fault at one place is answered: the lowest.
fn rank(kind: FaultKind) -> u32
    ensures { result ≡ rank_of kind }
{
    match kind {
        FaultKind::WrongDomain => 0,
        FaultKind::Unknown => 1,
        FaultKind::Arity => 2,
        FaultKind::Twice => 3,
    }
}

/// The numbers by which faults come one after another.
fn order(kind: FaultKind, file: File, at: Place) -> [u32; 5]
    ensures { result ≡ order_by kind file at }
{
    [stage(kind), file_rank(file), at.line, at.column, rank(kind)]
}

/// Whether a fault of this word comes before a known one: by the numbers, and by the name where they are the same.
fn comes_before(kind: FaultKind, file: File, word: &Word, known: &Fault) -> bool
    ensures { result ≡ is_earlier (fault_at kind file word.now) known.now }
{
    let order_of_known = order(known.kind, known.found.file, known.found.at);
    order(kind, file, word.at)
        .cmp(&order_of_known)
        .then(word.name.cmp(&known.found.name))
        .is_lt()
}

/// A fault of a word. Refuses only for want of memory.
fn at_word(kind: FaultKind, file: File, word: &Word) -> Result<Fault, OutOfMemory>
    ensures { IfOk result (λ fault. fault ≡ fault_at kind file word.now) }
{
    Ok(Fault {
        kind,
        found: Found {
            file,
            at: word.at,
            name: word.name.copy()?,
        },
    })
}

/// The first fault, when this one is found too. Refuses only for want of memory.
pub fn with(
    least: Option<Fault>,
    kind: FaultKind,
    file: File,
    word: &Word,
) -> Result<Option<Fault>, OutOfMemory>
    ensures { IfOk result (λ first. first ≡ leftmost least (fault_at kind file word.now ∷ [])) }
{
    match least {
        Some(known) => {
            if comes_before(kind, file, word, &known) {
                Ok(Some(at_word(kind, file, word)?))
            } else {
                Ok(Some(known))
            }
        }
        None => Ok(Some(at_word(kind, file, word)?)),
    }
}
