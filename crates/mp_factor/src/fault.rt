//! What is wrong in a tree, and which of two faults comes first.

ghost use Rattle.std.specs.Prelude.{◌≡◌, ◌∷◌, [], IfOk};
ghost use Rattle.mp_sexp.specs.Node.{node_of};
ghost use Rattle.mp_forms.specs.Faults.{rank_of, is_earlier, fault_at, unsupported_fault};
ghost use Rattle.mp_factor.specs.Found.{earlier_of};

use crate::trees::place;
use mp_forms::{Fault, FaultKind};
use mp_list::{Copied, OutOfMemory};
use mp_sexp::{Name, Place, Tree};
use std::alloc::Global;

/// Which fault at one place is answered: the lowest.
fn rank(kind: FaultKind) -> u32
    ensures { result ≡ rank_of kind }
{
    match kind {
        FaultKind::Shape => 0,
        FaultKind::Unsupported => 1,
        FaultKind::Parameters => 2,
        FaultKind::Cost => 3,
    }
}

/// The numbers by which faults come one after another.
fn order(fault: &Fault) -> [u32; 3]
    ensures { result ≡ fault.now.place.line ∷ fault.now.place.column
        ∷ rank_of fault.now.kind ∷ [] }
{
    [fault.place.line, fault.place.column, rank(fault.kind)]
}

/// Whether a fault comes before another: by the numbers, and by the word where they are the same.
fn is_before(a: &Fault, b: &Fault) -> bool
    ensures { result ≡ is_earlier a.now b.now }
{
    order(a)
        .cmp(&order(b))
        .then(a.word.as_slice().cmp(b.word.as_slice()))
        .is_lt()
}

/// The earlier of two faults.
#[tactic(auto, unfolding(crate::specs::Found::earlier_of))]
pub fn earlier(known: Fault, fault: Fault) -> Fault
    ensures { result ≡ earlier_of known fault }
{
    if is_before(&fault, &known) {
        fault
    } else {
        known
    }
}

/// A fault of a kind that tells no word.
pub fn without_word(alloc: Global, place: Place, kind: FaultKind) -> Fault
    ensures { result ≡ fault_at place kind }
{
    Fault {
        place,
        kind,
        word: Name::new(alloc),
    }
}

/// The fault of a word that is not supported. Refuses only for want of memory.
pub fn of_word(alloc: Global, tree: &Tree) -> Result<Fault, OutOfMemory>
    ensures { IfOk result (λ fault. fault ≡ unsupported_fault (node_of tree.now)) }
{
    let place = place(tree);
    match tree {
        Tree::Word(name, _) => Ok(Fault {
            place,
            kind: FaultKind::Unsupported,
            word: name.copy()?,
        }),
        Tree::List(_, _) => Ok(Fault {
            place,
            kind: FaultKind::Unsupported,
            word: Name::new(alloc),
        }),
    }
}
