//! Atoms and literals of an agent.

use mp_forms::{Atom, Literal, LiteralList, Term};
use mp_list::OutOfMemory;
use mp_messages::Bytes;
use mp_united_names::UnitedAgent;

/// Appends a term behind a blank.
fn push_term(out: &mut Bytes, agent: &UnitedAgent<'_>, term: &Term) -> Result<(), OutOfMemory> {
    out.push(b' ')?;
    match term {
        Term::Variable(word) => out.extend_from_slice(word.name.as_slice()),
        Term::Object(word) => agent.push_object(out, &word.name),
    }
}

/// Appends terms, each behind a blank, and the bracket that closes them.
fn push_terms(out: &mut Bytes, agent: &UnitedAgent<'_>, terms: &[Term]) -> Result<(), OutOfMemory> {
    for term in terms {
        push_term(out, agent, term)?;
    }
    out.push(b')')
}

/// Appends an atom.
pub fn push_atom(out: &mut Bytes, agent: &UnitedAgent<'_>, atom: &Atom) -> Result<(), OutOfMemory> {
    out.push(b'(')?;
    agent.push_predicate(out, &atom.word.name, atom.terms.len())?;
    push_terms(out, agent, atom.terms.as_slice())
}

/// Appends the negation of an atom.
pub fn push_negation(
    out: &mut Bytes,
    agent: &UnitedAgent<'_>,
    atom: &Atom,
) -> Result<(), OutOfMemory> {
    out.extend_from_slice(b"(not ")?;
    push_atom(out, agent, atom)?;
    out.push(b')')
}

/// Appends a literal.
fn push_literal(
    out: &mut Bytes,
    agent: &UnitedAgent<'_>,
    literal: &Literal,
) -> Result<(), OutOfMemory> {
    if literal.positive {
        push_atom(out, agent, &literal.atom)
    } else {
        push_negation(out, agent, &literal.atom)
    }
}

/// Appends literals, each behind these bytes.
pub fn push_literals(
    out: &mut Bytes,
    agent: &UnitedAgent<'_>,
    before: &[u8],
    literals: &LiteralList,
) -> Result<(), OutOfMemory> {
    for literal in literals.as_slice() {
        out.extend_from_slice(before)?;
        push_literal(out, agent, literal)?;
    }
    Ok(())
}

/// Appends a function of the agent applied to terms.
pub fn push_amount(out: &mut Bytes, agent: &UnitedAgent<'_>, of: &Atom) -> Result<(), OutOfMemory> {
    out.push(b'(')?;
    agent.push_own(out, &of.word.name)?;
    push_terms(out, agent, of.terms.as_slice())
}

/// Appends that a function of the agent has a value at terms.
pub fn push_has_value(
    out: &mut Bytes,
    agent: &UnitedAgent<'_>,
    of: &Atom,
) -> Result<(), OutOfMemory> {
    out.push(b'(')?;
    agent.push_value_test(out, &of.word.name)?;
    push_terms(out, agent, of.terms.as_slice())
}
