//! Atoms in numbers.

ghost use Rattle.std.specs.Prelude.{◌≡◌, not, map, IfOk, if◌then◌else◌};
ghost use Rattle.std.specs.List.{position};
ghost use Rattle.std.specs.Str.{bytes_eq};
ghost use Rattle.mp_forms.specs.Limits.{name_of_term};
ghost use Rattle.mp_lifting.specs.Lifting.{parameter_in, lifted_term, lifted_with, lifted_amount, is_total_cost};
ghost use Rattle.mp_lifting.specs.Factors.{ground_with};

use crate::vocabulary::Vocabulary;
use mp_forms::{Atom, Increase, Literal, Term, TermList, Typed, TypedList};
use mp_lifted::{Amount, GroundAtom, LiftedAtom, LiftedTerm};
use mp_list::{List, OutOfMemory, to_u32};
use mp_sexp::{Name, NameTable};
use std::alloc::Global;

/// The place of the first parameter with a name.
fn first_parameter(params: &[Typed], name: &Name) -> Option<usize>
    ensures { result ≡ position (λ p. bytes_eq p.word.name name.now) params.now }
{
    params
        .iter()
        .position(|param| param.word.name.as_slice() == name.as_slice())
}

/// The place of the parameter with a name, and their count where none has it.
#[tactic(auto, using(mp_lifted::proofs::Found::found_at, mp_lifted::proofs::Found::found_nowhere))]
fn parameter(params: &TypedList, name: &Name) -> usize
    ensures { result ≡ parameter_in params.now name.now }
{
    match first_parameter(params.as_slice(), name) {
        Some(place) => place,
        None => params.len(),
    }
}

/// A term in numbers.
fn lift_term(
    vocabulary: &Vocabulary<'_>,
    params: &TypedList,
    term: &Term,
) -> Result<LiftedTerm, OutOfMemory>
    ensures { IfOk result (λ made. made ≡ lifted_term vocabulary.now params.now term.now) }
{
    match term {
        Term::Variable(word) => Ok(LiftedTerm::Parameter(to_u32(parameter(params, &word.name))?)),
        Term::Object(word) => {
            let number = vocabulary.objects.number(&word.name);
            Ok(LiftedTerm::Object(to_u32(number)?))
        }
    }
}

/// Terms in numbers.
fn lifted_terms(
    alloc: Global,
    vocabulary: &Vocabulary<'_>,
    params: &TypedList,
    terms: &TermList,
) -> Result<List<LiftedTerm>, OutOfMemory>
    ensures { IfOk result (λ made. made ≡ map (lifted_term vocabulary.now params.now) terms.now) }
{
    let mut made = List::with_capacity(alloc, terms.len())?;
    for term in terms.as_slice() {
        made.push(lift_term(vocabulary, params, term)?)?;
    }
    Ok(made)
}

/// An atom whose first word is one of these names, in numbers.
pub fn lift_atom(
    alloc: Global,
    names: &NameTable<'_>,
    vocabulary: &Vocabulary<'_>,
    params: &TypedList,
    atom: &Atom,
) -> Result<LiftedAtom, OutOfMemory>
    ensures { IfOk result (λ made. made ≡ lifted_with names.now vocabulary.now params.now atom.now) }
{
    Ok(LiftedAtom {
        symbol: to_u32(names.number(&atom.word.name))?,
        terms: lifted_terms(alloc, vocabulary, params, &atom.terms)?,
    })
}

/// Whether a function is the total cost.
pub fn names_total_cost(function: &Atom) -> bool
    ensures { result ≡ is_total_cost function.now }
{
    function.word.name.is(b"total-cost")
}

/// What an increase adds, in numbers.
pub fn lift_amount(
    alloc: Global,
    vocabulary: &Vocabulary<'_>,
    params: &TypedList,
    increase: &Increase,
) -> Result<Amount, OutOfMemory>
    ensures { IfOk result (λ made. made ≡ lifted_amount vocabulary.now params.now increase.now) }
{
    match increase {
        Increase::Number(cost) => Ok(Amount::Number(*cost)),
        Increase::Function(function) => {
            if names_total_cost(function) {
                return Ok(Amount::Missing);
            }
            let names = &vocabulary.functions;
            Ok(Amount::Value(lift_atom(alloc, names, vocabulary, params, function)?))
        }
    }
}

/// Whether a literal is one that a condition asks for, or one that it has under `not`.
pub fn has_sign(literal: &Literal, positive: bool) -> bool
    ensures { result ≡ (if positive then literal.now.positive else not literal.now.positive) }
{
    if positive {
        literal.positive
    } else {
        !literal.positive
    }
}

/// An atom without parameters whose first word is one of these names, in numbers.
pub fn number_atom(
    alloc: Global,
    names: &NameTable<'_>,
    vocabulary: &Vocabulary<'_>,
    atom: &Atom,
) -> Result<GroundAtom, OutOfMemory>
    ensures { IfOk result (λ made. made
        ≡ ground_with names.now vocabulary.now atom.now.word.name (map name_of_term atom.now.terms)) }
{
    let mut args = List::with_capacity(alloc, atom.terms.len())?;
    for term in atom.terms.as_slice() {
        args.push(to_u32(vocabulary.objects.number(term.name()))?)?;
    }
    Ok(GroundAtom {
        symbol: to_u32(names.number(&atom.word.name))?,
        args,
    })
}
