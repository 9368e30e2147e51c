//! Atoms where objects stand for the parameters.

ghost use Rattle.std.specs.Prelude.{◌≡◌, ◌++◌, map, nat_eq, OnOk};
ghost use Rattle.std.specs.List.{list_any};
ghost use Rattle.std.specs.Cmp.Lexicographic.{pointwise};
ghost use Rattle.mp_lifted.specs.Atoms.{object_at as object_of_term, atom_at, atoms_at};
ghost use Rattle.mp_lifted.specs.Atoms.{same_atom, is_among};
ghost use Rattle.mp_lifted.specs.Start.{is_private as is_private_atom, is_so};

use crate::lifted::{LiftedAtom, LiftedFactor, LiftedTerm};
use mp_list::OutOfMemory;

/// The object that a term is, where these objects stand for the parameters.
pub fn object_at(objects: &[u32], term: &LiftedTerm) -> u32
    ensures { result ≡ object_of_term objects.now term.now }
{
    match *term {
        LiftedTerm::Parameter(place) => match objects.get(place as usize) {
            Some(object) => *object,
            None => 0,
        },
        LiftedTerm::Object(number) => number,
    }
}

/// Adds the objects of an atom where these objects stand for the parameters.
pub fn add_objects(
    out: &mut Vec<u32>,
    objects: &[u32],
    atom: &LiftedAtom,
) -> Result<(), OutOfMemory>
    ensures { OnOk result (out.new.items
        ≡ out.old.items ++ map (object_of_term objects.now) atom.now.terms) }
{
    for term in atom.terms.as_slice() {
        out.push(object_at(objects, term))?;
    }
    Ok(())
}

/// Whether an atom is among others where these objects stand for the parameters. It takes no
/// memory.
pub fn is_among_at(objects: &[u32], atom: &LiftedAtom, others: &[LiftedAtom]) -> bool
    ensures { result ≡ is_among (atom_at objects.now atom.now) (atoms_at objects.now others.now) }
{
    for other in others {
        if is_same_at(objects, atom, other) {
            return true;
        }
    }
    false
}

/// Whether two atoms are the same where these objects stand for the parameters.
fn is_same_at(objects: &[u32], atom: &LiftedAtom, other: &LiftedAtom) -> bool
    ensures { result ≡ same_atom (atom_at objects.now atom.now) (atom_at objects.now other.now) }
{
    atom.symbol == other.symbol
        && are_same_at(objects, atom.terms.as_slice(), other.terms.as_slice())
}

/// Whether terms are the same where these objects stand for the parameters.
fn are_same_at(objects: &[u32], terms: &[LiftedTerm], others: &[LiftedTerm]) -> bool
    ensures { result ≡ pointwise nat_eq (map (object_of_term objects.now) terms.now)
        (map (object_of_term objects.now) others.now) }
{
    match terms {
        [] => others.is_empty(),
        [term, rest @ ..] => match others {
            [] => false,
            [other, behind @ ..] => {
                object_at(objects, term) == object_at(objects, other)
                    && are_same_at(objects, rest, behind)
            }
        },
    }
}

/// Whether a fact is private: its predicate or one of its objects is. It takes no memory.
pub fn is_private(factor: &LiftedFactor, predicate: u32, objects: &[u32]) -> bool
    ensures { result ≡ is_private_atom factor.now
        (record { symbol = predicate; args = objects.now }) }
{
    is_flagged(factor.private_predicates.as_slice(), predicate)
        || has_flagged(factor.private_objects.as_slice(), objects)
}

/// Whether something is so of the predicate or object with a number.
fn is_flagged(flags: &[bool], number: u32) -> bool
    ensures { result ≡ is_so flags.now number }
{
    match flags.get(number as usize) {
        Some(flag) => *flag,
        None => false,
    }
}

/// Whether something is so of one of these objects.
fn has_flagged(flags: &[bool], objects: &[u32]) -> bool
    ensures { result ≡ list_any (is_so flags.now) objects.now }
{
    objects.iter().any(|object| is_flagged(flags, *object))
}
