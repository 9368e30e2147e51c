//! The names that a factor keeps to itself, and which atoms are private.

ghost use Rattle.std.specs.Prelude.{◌≡◌, ◌++◌, [], map, filter, IfOk, OnOk};
ghost use Rattle.std.specs.List.{list_any};
ghost use Rattle.mp_joint.specs.Fact.{is_listed};
ghost use Rattle.mp_joint.specs.FactorContribution.{privates_of};
ghost use Rattle.mp_joint.specs.Grounding.{object_of, objects_of};
ghost use Rattle.mp_lifting.specs.Privates.{private_in, is_private_atom};

use mp_forms::{Atom, Factor, SignatureList, Term, TypedList};
use mp_list::OutOfMemory;
use mp_sexp::{Name, NameTable};
use std::alloc::Global;

/// The predicates and the objects that are private in a factor.
#[derive(Drop)]
pub struct PrivateNames<'a> {
    pub predicates: NameTable<'a>,
    pub objects: NameTable<'a>,
}

impl<'a> PrivateNames<'a> {
    /// Whether an atom without variables is private. It takes no memory.
    pub fn has(&self, atom: &Atom) -> bool
        ensures { result ≡ is_private_atom (private_in self.now) atom.now }
    {
        self.predicates.contains(&atom.word.name)
            || is_one_among(atom.terms.as_slice(), &self.objects)
    }
}

/// The name that a term is.
pub fn term_name(term: &Term) -> &Name
    ensures { result.now ≡ object_of [] [] term.now }
{
    match term {
        Term::Variable(word) => &word.name,
        Term::Object(word) => &word.name,
    }
}

/// Whether the name of one of some terms is among these.
fn is_one_among(terms: &[Term], names: &NameTable<'_>) -> bool
    ensures { result ≡ list_any (λ o. is_listed o names.now) (objects_of [] [] terms.now) }
{
    for term in terms {
        if names.contains(term_name(term)) {
            return true;
        }
    }
    false
}

/// The names of those predicates that are private.
pub(crate) fn private_predicates<'a>(
    alloc: Global,
    predicates: &'a SignatureList,
) -> Result<NameTable<'a>, OutOfMemory>
    ensures { IfOk result (λ table. table ≡ map (λ s. s.word.name) (filter (λ s. s.private) predicates.now)) }
{
    let mut table = NameTable::new(alloc);
    for signature in predicates.as_slice() {
        if signature.private {
            table.push(&signature.word.name)?;
        }
    }
    Ok(table)
}

/// Adds the names of those objects that are private.
fn add_private_objects<'a>(
    table: &mut NameTable<'a>,
    objects: &'a TypedList,
) -> Result<(), OutOfMemory>
    ensures { OnOk result (table.new
        ≡ table.old ++ map (λ o. o.word.name) (filter (λ o. o.private) objects.now)) }
{
    for object in objects.as_slice() {
        if object.private {
            table.push(&object.word.name)?;
        }
    }
    Ok(())
}

/// The names of the private ones of some objects and of others behind them.
fn private_objects<'a>(
    alloc: Global,
    constants: &'a TypedList,
    objects: &'a TypedList,
) -> Result<NameTable<'a>, OutOfMemory>
    ensures { IfOk result (λ names. names ≡ map (λ o. o.word.name) (filter (λ o. o.private) (constants.now ++ objects.now))) }
{
    let mut names = NameTable::new(alloc);
    add_private_objects(&mut names, constants)?;
    add_private_objects(&mut names, objects)?;
    Ok(names)
}

/// The names that a factor keeps to itself. Refuses only for want of memory.
pub fn private_names<'a>(alloc: Global, factor: &'a Factor) -> Result<PrivateNames<'a>, OutOfMemory>
    ensures predicates { IfOk result (λ names. names.predicates ≡ (privates_of factor.now).predicates) }
    ensures objects { IfOk result (λ names. names.objects ≡ (privates_of factor.now).objects) }
{
    Ok(PrivateNames {
        predicates: private_predicates(alloc, &factor.domain.predicates)?,
        objects: private_objects(alloc, &factor.domain.constants, &factor.problem.objects)?,
    })
}
