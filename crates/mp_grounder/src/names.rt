//! Names by their numbers.

ghost use Rattle.std.specs.Prelude.{◌≡◌, ◌++◌, map, length, slice_get, IfOk, OnOk};
ghost use Rattle.std.specs.Option.{option_map};
ghost use Rattle.mp_lifting.specs.Vocabulary.{declared_names};
ghost use Rattle.mp_sexp.specs.Numbers.{name_at};
ghost use Rattle.mp_grounder.specs.Numbered.{fact_names};

use mp_forms::{Factor, SignatureList, TypedList};
use mp_list::{Copied, List, OutOfMemory};
use mp_sexp::{Name, NameList};
use std::alloc::Global;
use std::marker::Model;

/// Names whose places are their numbers. Contracts see it as the list of the names.
#[derive(Drop)]
pub struct Names<'a> {
    names: Vec<&'a Name>,
}

impl<'a> Model for Names<'a> {
    ghost use Rattle.std.specs.Prelude.{ℕ, List, map};

    ghost Value = { List (List ℕ) };

    ghost view = { λ t. map (λ n. n.now) t.names.items };
}

impl<'a> Names<'a> {
    /// The name with a number: none exactly where the number is not below their count.
    pub fn name(&self, number: usize) -> Option<&'a Name>
        ensures { option_map (λ n. n.now) result ≡ slice_get self.now number }
    {
        self.names.get(number).copied()
    }
}

/// The names of predicates, as they are declared, and of objects in object order.
#[derive(Drop)]
pub struct FactNames<'a> {
    pub predicates: Names<'a>,
    pub objects: Names<'a>,
}

/// Adds the names of objects.
fn add_names<'a>(names: &mut Vec<&'a Name>, objects: &'a TypedList) -> Result<(), OutOfMemory>
    ensures { OnOk result (map (λ n. n.now) names.new.items
        ≡ map (λ n. n.now) names.old.items ++ map (λ o. o.word.name) objects.now) }
{
    for object in objects.as_slice() {
        names.push(&object.word.name)?;
    }
    Ok(())
}

/// The names of objects as they are declared.
fn all_names<'a>(
    alloc: Global,
    constants: &'a TypedList,
    objects: &'a TypedList,
) -> Result<Names<'a>, OutOfMemory>
    ensures { IfOk result (λ names. names ≡ map (λ o. o.word.name) (constants.now ++ objects.now)) }
{
    let mut names = Vec::with_capacity(alloc, objects.len())?;
    add_names(&mut names, constants)?;
    add_names(&mut names, objects)?;
    Ok(Names { names })
}

/// The names of objects in object order.
fn names_in_order<'a>(
    alloc: Global,
    constants: &'a TypedList,
    objects: &'a TypedList,
) -> Result<Names<'a>, OutOfMemory>
    ensures { IfOk result (λ names. names ≡ declared_names (constants.now ++ objects.now)) }
{
    let table = mp_lifting::object_names(alloc, constants, objects)?;
    Ok(Names {
        names: Vec::from_slice(alloc, table.as_slice())?,
    })
}

/// The names of objects in object order, of which so many differ. Where each object has a name of its own, none is looked
/// for among those before it.
fn counted_names<'a>(
    alloc: Global,
    constants: &'a TypedList,
    objects: &'a TypedList,
    count: usize,
) -> Result<Names<'a>, OutOfMemory>
    requires { count ≡ length (declared_names (constants.now ++ objects.now)) }
    ensures { IfOk result (λ names. names ≡ declared_names (constants.now ++ objects.now)) }
{
    let declared = constants.as_slice().len() + objects.as_slice().len();
    if count == declared {
        all_names(alloc, constants, objects)
    } else {
        names_in_order(alloc, constants, objects)
    }
}

/// The names of predicates.
fn predicate_names<'a>(
    alloc: Global,
    signatures: &'a SignatureList,
) -> Result<Names<'a>, OutOfMemory>
    ensures { IfOk result (λ names. names ≡ map (λ s. s.word.name) signatures.now) }
{
    let mut names = Vec::with_capacity(alloc, signatures.len())?;
    for signature in signatures.as_slice() {
        names.push(&signature.word.name)?;
    }
    Ok(Names { names })
}

/// The names of a factor's objects.
pub fn object_names<'a>(alloc: Global, factor: &'a Factor) -> Result<Names<'a>, OutOfMemory>
    ensures { IfOk result (λ names. names ≡ (fact_names factor.now).objects) }
{
    names_in_order(alloc, &factor.domain.constants, &factor.problem.objects)
}

/// The names of a factor's predicates and of its objects, of which so many have different names.
pub fn name_facts<'a>(
    alloc: Global,
    factor: &'a Factor,
    count: usize,
) -> Result<FactNames<'a>, OutOfMemory>
    requires { count ≡ length (fact_names factor.now).objects }
    ensures { IfOk result (λ names. names ≡ fact_names factor.now) }
{
    let predicates = predicate_names(alloc, &factor.domain.predicates)?;
    let constants = &factor.domain.constants;
    let objects = counted_names(alloc, constants, &factor.problem.objects, count)?;
    Ok(FactNames {
        predicates,
        objects,
    })
}

/// A copy of the name with a number: the empty name where there is none.
fn copied_name(alloc: Global, names: &Names<'_>, number: u32) -> Result<Name, OutOfMemory>
    ensures { IfOk result (λ name. name ≡ name_at names.now number) }
{
    match names.name(number as usize) {
        Some(name) => name.copy(),
        None => Ok(Name::new(alloc)),
    }
}

/// Copies of the names with these numbers.
pub fn copied_names(
    alloc: Global,
    names: &Names<'_>,
    numbers: &[u32],
) -> Result<NameList, OutOfMemory>
    ensures { IfOk result (λ list. list ≡ map (name_at names.now) numbers.now) }
{
    let mut list = List::with_capacity(alloc, numbers.len())?;
    for number in numbers {
        list.push(copied_name(alloc, names, *number)?)?;
    }
    Ok(list)
}
