//! How initial facts are spelled.

ghost use Rattle.std.specs.Prelude.{◌≡◌, ◌++◌, ◌∷◌, [], IfOk, OnOk};
ghost use Rattle.mp_sexp.specs.Bytes.{folded};
ghost use Rattle.mp_joint.specs.Grounding.{objects_of};
ghost use Rattle.mp_lifting.specs.Texts.{bracketed};
ghost use Rattle.mp_views.specs.Lines.{spaced};

use mp_forms::{Atom, Term};
use mp_lifting::term_name;
use mp_list::OutOfMemory;
use mp_sexp::Name;
use std::alloc::Global;

/// Appends a name.
#[tactic(auto, using(crate::proofs::FoldedLemmas::fact_steps, crate::proofs::FoldedLemmas::folded_same))]
pub fn push_name(text: &mut Vec<u8>, name: &Name) -> Result<(), OutOfMemory>
    ensures { OnOk result (folded text.new.items ≡ folded text.old.items ++ name.now) }
{
    text.extend_from_slice(name.as_slice())?;
    Ok(())
}

/// Appends the names of terms, each behind one space.
#[tactic(auto, using(crate::proofs::FoldedLemmas::fact_steps))]
fn push_terms(text: &mut Vec<u8>, terms: &[Term]) -> Result<(), OutOfMemory>
    ensures { OnOk result (folded text.new.items ≡ folded text.old.items ++ spaced (objects_of [] [] terms.now)) }
{
    for term in terms {
        text.push(b' ')?;
        push_name(text, term_name(term))?;
    }
    Ok(())
}

/// Appends `(PREDICATE TERM ..)`.
#[tactic(auto, using(crate::proofs::FoldedLemmas::fact_steps))]
fn push_atom(text: &mut Vec<u8>, atom: &Atom) -> Result<(), OutOfMemory>
    ensures { OnOk result (folded text.new.items ≡ folded text.old.items
        ++ bracketed (atom.now.word.name ∷ objects_of [] [] atom.now.terms)) }
{
    text.push(b'(')?;
    push_name(text, &atom.word.name)?;
    push_terms(text, atom.terms.as_slice())?;
    text.push(b')')?;
    Ok(())
}

/// The text of an atom without variables. The bytes are written to `scratch`, whatever is there before is lost. Refuses only
/// for want of memory.
pub(crate) fn atom_text(
    alloc: Global,
    scratch: &mut Vec<u8>,
    atom: &Atom,
) -> Result<Name, OutOfMemory>
    ensures { IfOk result (λ text. text ≡ bracketed (atom.now.word.name ∷ objects_of [] [] atom.now.terms)) }
{
    scratch.clear();
    push_atom(scratch, atom)?;
    Name::folded(alloc, scratch.as_slice())
}
