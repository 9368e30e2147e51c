//! The parts of facts of atoms where objects stand for the parameters.

ghost use Rattle.std.specs.Prelude.{◌≡◌, ◌++◌, map, slice_index_or, IfOk, OnOk};
ghost use Rattle.std.specs.List.{list_any};
ghost use Rattle.mp_checker.specs.At.{object_at as object_of, owner_at as owner_of, nothing};

use crate::numbered::{NumberedAtom, ObjectNumber, TermNumber};
use mp_list::{List, OutOfMemory};
use mp_sets::Agent;
use std::alloc::Global;

/// What stands at a place past the end.
const NOTHING: ObjectNumber = ObjectNumber {
    number: 0,
    private: false,
};

/// The object at a place.
pub fn object_in(objects: &[ObjectNumber], place: usize) -> ObjectNumber
    ensures { result ≡ slice_index_or objects.now place nothing }
{
    match objects.get(place) {
        Some(object) => *object,
        None => NOTHING,
    }
}

/// The object that a term is.
fn object_at(args: &[ObjectNumber], term: &TermNumber) -> ObjectNumber
    ensures { result ≡ object_of args.now term.now }
{
    match *term {
        TermNumber::Parameter(place) => object_in(args, place as usize),
        TermNumber::Object(object) => object,
    }
}

/// Whether a term is a private object.
fn has_private(args: &[ObjectNumber], terms: &[TermNumber]) -> bool
    ensures { result ≡ list_any (λ t. (object_of args.now t).private) terms.now }
{
    for term in terms {
        if object_at(args, term).private {
            return true;
        }
    }
    false
}

/// The agent, where the predicate or an object is private.
pub fn owner_at(agent: Agent, args: &[ObjectNumber], atom: &NumberedAtom) -> Option<u16>
    ensures { result ≡ owner_of agent args.now atom.now }
{
    if atom.private || has_private(args, atom.terms.as_slice()) {
        Some(agent.number())
    } else {
        None
    }
}

/// Adds the objects that terms are.
pub fn add_objects(
    out: &mut Vec<u32>,
    args: &[ObjectNumber],
    terms: &List<TermNumber>,
) -> Result<(), OutOfMemory>
    ensures { OnOk result (out.new.items
        ≡ out.old.items ++ map (λ t. (object_of args.now t).number) terms.now) }
{
    for term in terms.as_slice() {
        out.push(object_at(args, term).number)?;
    }
    Ok(())
}

/// Numbers in a list of their own.
pub fn list_of(alloc: Global, numbers: &[u32]) -> Result<List<u32>, OutOfMemory>
    ensures { IfOk result (λ list. list ≡ numbers.now) }
{
    let mut list = List::with_capacity(alloc, numbers.len())?;
    for number in numbers {
        list.push(*number)?;
    }
    Ok(list)
}
