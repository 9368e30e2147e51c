//! What the two files of a factor declare.

ghost use Rattle.std.specs.Prelude.{◌≡◌, ◌==◌, ◌+◌, ◌<◌, ◌^◌, ◌++◌, ◌∷◌, [], List, map, length, slice_get, find, IfOk, OnOk};
ghost use Rattle.std.specs.Option.{option_copied};
ghost use Rattle.std.specs.Str.{bytes_eq};
ghost use Rattle.mp_forms.specs.declared.typed_values.Typed.{Typed as TypedValue};
ghost use Rattle.mp_typing.specs.Indexed.{HasArities, HasPlaces};
ghost use Rattle.mp_typing.specs.Listing.{AreFound};
ghost use Rattle.mp_typing.specs.Lookups.{arity_of, factor_of, is_object, objects_of};
ghost use Rattle.mp_typing.specs.ObjectList.{object_list};

use crate::index::Index;
use mp_forms::{Domain, Problem, Signature, Typed};
use mp_list::OutOfMemory;
use mp_sexp::Name;
use std::alloc::Global;
use std::marker::Model;

/// The names that a factor declares, each found in one step.
#[derive(Drop)]
pub struct Declared<'a> {
    domain: &'a Domain,
    problem: &'a Problem,
    /// Constants and then objects, each with its place among them, counted from 0.
    objects: Index,
    /// The first object of each name, in object order.
    listed: Vec<&'a Typed>,
    /// Predicates, each with the number of its parameters.
    predicates: Index,
    /// Functions, each with the number of its parameters.
    functions: Index,
}

impl<'a> Model for Declared<'a> {
    ghost use Rattle.std.specs.Prelude.{◌≡◌, map};
    ghost use Rattle.mp_forms.specs.declared.factor.Factor.{Factor};
    ghost use Rattle.mp_typing.specs.Indexed.{HasArities, HasPlaces};
    ghost use Rattle.mp_typing.specs.Lookups.{factor_of, objects_of};
    ghost use Rattle.mp_typing.specs.ObjectList.{object_list};

    ghost Value = { Factor };

    ghost view = { λ d. factor_of d.domain.now d.problem.now };

    ghost invariant = { λ d. HasPlaces d.objects (objects_of (factor_of d.domain.now d.problem.now))
        × (map (λ o. o.now) d.listed.items ≡ object_list d.domain.now d.problem.now)
        × HasArities d.predicates d.domain.now.predicates
        × HasArities d.functions d.domain.now.functions };
}

/// Predicates or functions, each with the number of its parameters. Refuses only for want of memory.
fn arities<'a>(alloc: Global, signatures: &'a [Signature]) -> Result<Index, OutOfMemory>
    ensures { IfOk result (λ index. HasArities index signatures.now) }
{
    let mut index = Index::with_capacity(alloc, signatures.len())?;
    for signature in signatures {
        index.add(&signature.word.name, signature.params.len())?;
    }
    Ok(index)
}

/// The objects that are found by name, and the first one of each name in object order.
#[derive(Drop)]
struct Objects<'a> {
    places: Index,
    listed: Vec<&'a Typed>,
}

impl<'a> Objects<'a> {
    /// Adds an object with its place, which is the number of those before it. Refuses only for want of memory.
    fn add(&mut self, place: usize, object: &'a Typed) -> Result<(), OutOfMemory>
        ensures { OnOk result ((before : List TypedValue) → length before ≡ place
            → AreFound before self.old.places (map (λ o. o.now) self.old.listed.items)
            → AreFound (before ++ object.now ∷ []) self.new.places (map (λ o. o.now) self.new.listed.items)) }
    {
        if self.places.add(&object.word.name, place)? {
            self.listed.push(object)?;
        }
        Ok(())
    }

    /// Adds objects, each with its place, of which the first is given. Refuses only for want of memory.
    fn add_all(&mut self, first: usize, objects: &'a [Typed]) -> Result<(), OutOfMemory>
        requires { first + length objects.now < 2 ^ 64 }
        ensures { OnOk result ((before : List TypedValue) → length before ≡ first
            → AreFound before self.old.places (map (λ o. o.now) self.old.listed.items)
            → AreFound (before ++ objects.now) self.new.places (map (λ o. o.now) self.new.listed.items)) }
    {
        for (i, object) in objects.iter().enumerate() {
            self.add(first + i, object)?;
        }
        Ok(())
    }
}

/// Constants and then objects. Refuses only for want of memory.
fn found<'a>(
    alloc: Global,
    constants: &'a [Typed],
    objects: &'a [Typed],
) -> Result<Objects<'a>, OutOfMemory>
    ensures { IfOk result (λ found. AreFound (constants.now ++ objects.now) found.places (map (λ o. o.now) found.listed.items)) }
{
    let count = constants.len() + objects.len();
    let mut found = Objects {
        places: Index::with_capacity(alloc, count)?,
        listed: Vec::with_capacity(alloc, count)?,
    };
    found.add_all(0, constants)?;
    found.add_all(constants.len(), objects)?;
    Ok(found)
}

/// The object at this place, constants before objects.
fn object_at<'a>(constants: &'a [Typed], objects: &'a [Typed], at: usize) -> Option<&'a Typed>
    ensures { option_copied result ≡ slice_get (constants.now ++ objects.now) at }
{
    if at < constants.len() {
        constants.get(at)
    } else {
        objects.get(at - constants.len())
    }
}

impl<'a> Declared<'a> {
    /// The names that two files declare. Refuses only for want of memory.
    pub fn new(
        alloc: Global,
        domain: &'a Domain,
        problem: &'a Problem,
    ) -> Result<Declared<'a>, OutOfMemory>
        ensures { IfOk result (λ known. known ≡ factor_of domain.now problem.now) }
    {
        let constants = domain.constants.as_slice();
        let Objects { places, listed } = found(alloc, constants, problem.objects.as_slice())?;
        Ok(Declared {
            domain,
            problem,
            objects: places,
            listed,
            predicates: arities(alloc, domain.predicates.as_slice())?,
            functions: arities(alloc, domain.functions.as_slice())?,
        })
    }

    /// The first object of each name, in object order. All else is let go.
    pub fn into_listed(self) -> Vec<&'a Typed>
        ensures { map (λ o. o.now) result.items ≡ object_list self.entry.domain self.entry.problem }
    {
        self.listed
    }

    /// Whether each object has a name of its own.
    #[tactic(auto, using(crate::proofs::DistinctLemmas::as_many))]
    pub fn is_distinct(&self) -> bool
        ensures { result ≡ (length (object_list self.now.domain self.now.problem) == length (objects_of self.now)) }
    {
        let domain = self.domain;
        let problem = self.problem;
        let constants = domain.constants.as_slice();
        let objects = problem.objects.as_slice();
        self.listed.len() == constants.len() + objects.len()
    }

    /// The first object that has this name, constants before objects.
    pub fn object(&self, name: &Name) -> Option<&'a Typed>
        ensures { option_copied result ≡ find (λ o. bytes_eq o.word.name name.now) (objects_of self.now) }
    {
        let domain = self.domain;
        let problem = self.problem;
        match self.objects.find(name) {
            Some(at) => object_at(domain.constants.as_slice(), problem.objects.as_slice(), at),
            None => None,
        }
    }

    /// Whether an object has this name.
    pub fn has_object(&self, name: &Name) -> bool
        ensures { result ≡ is_object (objects_of self.now) name.now }
    {
        self.objects.find(name).is_some()
    }

    /// The number of parameters of the first predicate that has this name.
    pub fn predicate(&self, name: &Name) -> Option<usize>
        ensures { result ≡ arity_of self.now.domain.predicates name.now }
    {
        self.predicates.find(name)
    }

    /// The same, where it is known of another name: facts of one predicate most often stand together, and so a name is
    /// looked up only where it is not the other one.
    pub fn predicate_beside(
        &self,
        other: &Name,
        number: Option<usize>,
        name: &Name,
    ) -> Option<usize>
        requires { number ≡ arity_of self.now.domain.predicates other.now }
        ensures { result ≡ arity_of self.now.domain.predicates name.now }
    {
        if other.as_slice() == name.as_slice() {
            number
        } else {
            self.predicate(name)
        }
    }

    /// The number of parameters of the first function that has this name.
    pub fn function(&self, name: &Name) -> Option<usize>
        ensures { result ≡ arity_of self.now.domain.functions name.now }
    {
        self.functions.find(name)
    }
}
