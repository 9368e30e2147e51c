//! The names that a factor declares.

ghost use Rattle.std.specs.Prelude.{◌≡◌, ◌++◌, ◌∷◌, [], List as ListOf, map, IfOk, OnOk};
ghost use Rattle.mp_forms.specs.declared.typed_values.Typed.{Typed as Declaration};
ghost use Rattle.mp_lifting.specs.Vocabulary.{declared_names, vocabulary_of};

use mp_forms::{Factor, SignatureList, Typed, TypedList};
use mp_list::OutOfMemory;
use mp_sexp::NameTable;
use std::alloc::Global;

/// The names of a factor's objects in object order, and of its predicates and functions as they are declared. Their
/// places are their numbers.
#[derive(Drop)]
pub struct Vocabulary<'a> {
    pub objects: NameTable<'a>,
    pub predicates: NameTable<'a>,
    pub functions: NameTable<'a>,
}

/// Adds the name of an object, where it is not there yet.
fn add_object<'a>(table: &mut NameTable<'a>, object: &'a Typed) -> Result<(), OutOfMemory>
    ensures { OnOk result ((declared : ListOf Declaration) → table.old ≡ declared_names declared
        → table.new ≡ declared_names (declared ++ object.now ∷ [])) }
{
    if table.contains(&object.word.name) {
        return Ok(());
    }
    table.push(&object.word.name)?;
    Ok(())
}

/// Adds the names of objects that are not there yet.
fn add_objects<'a>(table: &mut NameTable<'a>, objects: &'a TypedList) -> Result<(), OutOfMemory>
    ensures { OnOk result ((before : ListOf Declaration) → table.old ≡ declared_names before
        → table.new ≡ declared_names (before ++ objects.now)) }
{
    for object in objects.as_slice() {
        add_object(table, object)?;
    }
    Ok(())
}

/// The names of some objects and of others behind them in object order: each where it is declared first. Refuses only for want of
/// memory.
pub fn object_names<'a>(
    alloc: Global,
    constants: &'a TypedList,
    objects: &'a TypedList,
) -> Result<NameTable<'a>, OutOfMemory>
    ensures { IfOk result (λ names. names ≡ declared_names (constants.now ++ objects.now)) }
{
    let mut names = NameTable::new(alloc);
    add_objects(&mut names, constants)?;
    add_objects(&mut names, objects)?;
    Ok(names)
}

/// The names of predicates or functions.
fn names_of<'a>(alloc: Global, signatures: &'a SignatureList) -> Result<NameTable<'a>, OutOfMemory>
    ensures { IfOk result (λ table. table ≡ map (λ s. s.word.name) signatures.now) }
{
    let mut table = NameTable::new(alloc);
    for signature in signatures.as_slice() {
        table.push(&signature.word.name)?;
    }
    Ok(table)
}

/// The names of a factor.
pub fn make_vocabulary<'a>(alloc: Global, factor: &'a Factor) -> Result<Vocabulary<'a>, OutOfMemory>
    ensures { IfOk result (λ made. made ≡ vocabulary_of factor.now) }
{
    Ok(Vocabulary {
        objects: object_names(alloc, &factor.domain.constants, &factor.problem.objects)?,
        predicates: names_of(alloc, &factor.domain.predicates)?,
        functions: names_of(alloc, &factor.domain.functions)?,
    })
}
