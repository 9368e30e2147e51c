//! Atoms as text.

use mp_forms::{Atom, Term};
use mp_hints::text_of;
use mp_list::OutOfMemory;

/// The word of a term.
fn term_text(term: &Term) -> &str {
    match term {
        Term::Variable(word) => text_of(word.name.as_slice()),
        Term::Object(word) => text_of(word.name.as_slice()),
    }
}

/// Writes an atom as files have it, `(NAME TERM ..)`.
pub fn push_atom(out: &mut String, atom: &Atom) -> Result<(), OutOfMemory> {
    out.push('(')?;
    out.push_str(text_of(atom.word.name.as_slice()))?;
    for term in atom.terms.as_slice() {
        out.push(' ')?;
        out.push_str(term_text(term))?;
    }
    out.push(')')?;
    Ok(())
}
