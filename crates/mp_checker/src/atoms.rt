//! Atoms in numbers.

ghost use Rattle.std.specs.Prelude.{◌≡◌, map, IfOk};
ghost use Rattle.mp_checker.specs.Numbering.{parameter_in, object_number as object_of, term_number as term_of, numbered_atom as atom_of, numbered_literal as literal_of};
ghost use Rattle.mp_lifting.specs.Privates.{private_in};

use crate::numbered::{NumberedAtom, NumberedLiteral, ObjectNumber, TermNumber};
use mp_forms::{Atom, AtomList, Literal, LiteralList, Term, TermList, TypedList};
use mp_lifting::PrivateNames;
use mp_list::{List, OutOfMemory, to_u32};
use mp_sexp::{Name, NameTable};
use std::alloc::Global;

/// An object in numbers.
pub fn object_number(
    names: &NameTable<'_>,
    privates: &PrivateNames<'_>,
    name: &Name,
) -> Result<ObjectNumber, OutOfMemory>
    ensures { IfOk result (λ made. made ≡ object_of names.now (private_in privates.now) name.now) }
{
    Ok(ObjectNumber {
        number: to_u32(names.number(name))?,
        private: privates.objects.contains(name),
    })
}

/// The place of the parameter with a name: none where there is none.
fn parameter(params: &TypedList, name: &Name) -> Option<usize>
    ensures { result ≡ parameter_in params.now name.now }
{
    params
        .as_slice()
        .iter()
        .position(|param| param.word.name.as_slice() == name.as_slice())
}

/// A term in numbers.
fn term_number(
    names: &NameTable<'_>,
    privates: &PrivateNames<'_>,
    params: &TypedList,
    term: &Term,
) -> Result<TermNumber, OutOfMemory>
    ensures { IfOk result (λ made. made ≡ term_of names.now (private_in privates.now) params.now term.now) }
{
    match term {
        Term::Variable(word) => match parameter(params, &word.name) {
            Some(place) => Ok(TermNumber::Parameter(to_u32(place)?)),
            None => Ok(TermNumber::Object(object_number(names, privates, &word.name)?)),
        },
        Term::Object(word) => Ok(TermNumber::Object(object_number(names, privates, &word.name)?)),
    }
}

/// Terms in numbers.
fn term_numbers(
    alloc: Global,
    names: &NameTable<'_>,
    privates: &PrivateNames<'_>,
    params: &TypedList,
    terms: &TermList,
) -> Result<List<TermNumber>, OutOfMemory>
    ensures { IfOk result (λ made. made ≡ map (term_of names.now (private_in privates.now) params.now) terms.now) }
{
    let mut made = List::with_capacity(alloc, terms.len())?;
    for term in terms.as_slice() {
        made.push(term_number(names, privates, params, term)?)?;
    }
    Ok(made)
}

/// An atom in numbers.
pub fn numbered_atom(
    alloc: Global,
    names: &NameTable<'_>,
    privates: &PrivateNames<'_>,
    params: &TypedList,
    atom: &Atom,
) -> Result<NumberedAtom, OutOfMemory>
    ensures { IfOk result (λ made. made ≡ atom_of names.now (private_in privates.now) params.now atom.now) }
{
    Ok(NumberedAtom {
        symbol: to_u32(names.number(&atom.word.name))?,
        private: privates.predicates.contains(&atom.word.name),
        terms: term_numbers(alloc, names, privates, params, &atom.terms)?,
    })
}

/// Atoms in numbers.
pub fn numbered_atoms(
    alloc: Global,
    names: &NameTable<'_>,
    privates: &PrivateNames<'_>,
    params: &TypedList,
    atoms: &AtomList,
) -> Result<List<NumberedAtom>, OutOfMemory>
    ensures { IfOk result (λ made. made ≡ map (atom_of names.now (private_in privates.now) params.now) atoms.now) }
{
    let mut made = List::with_capacity(alloc, atoms.len())?;
    for atom in atoms.as_slice() {
        made.push(numbered_atom(alloc, names, privates, params, atom)?)?;
    }
    Ok(made)
}

/// A literal in numbers.
fn numbered_literal(
    alloc: Global,
    names: &NameTable<'_>,
    privates: &PrivateNames<'_>,
    params: &TypedList,
    literal: &Literal,
) -> Result<NumberedLiteral, OutOfMemory>
    ensures { IfOk result (λ made. made ≡ literal_of names.now (private_in privates.now) params.now literal.now) }
{
    Ok(NumberedLiteral {
        positive: literal.positive,
        atom: numbered_atom(alloc, names, privates, params, &literal.atom)?,
    })
}

/// Literals in numbers.
pub fn numbered_literals(
    alloc: Global,
    names: &NameTable<'_>,
    privates: &PrivateNames<'_>,
    params: &TypedList,
    literals: &LiteralList,
) -> Result<List<NumberedLiteral>, OutOfMemory>
    ensures { IfOk result (λ made. made
        ≡ map (literal_of names.now (private_in privates.now) params.now) literals.now) }
{
    let mut made = List::with_capacity(alloc, literals.len())?;
    for literal in literals.as_slice() {
        made.push(numbered_literal(alloc, names, privates, params, literal)?)?;
    }
    Ok(made)
}
