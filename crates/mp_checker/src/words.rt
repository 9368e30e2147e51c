//! The names that stand in the facts of a team's files.

ghost use Rattle.std.specs.Prelude.{◌≡◌, ◌++◌, map, IfOk, OnOk};
ghost use Rattle.std.specs.List.{flat_map};
ghost use Rattle.mp_forms.specs.Limits.{name_of_term, names_of_atom};
ghost use Rattle.mp_checker.specs.Words.{names_of_schema, names_of_value, names_of_factor};

use mp_forms::{Atom, AtomList, Factor, Schema, SchemaList, TermList, TypedList, ValueList};
use mp_list::OutOfMemory;
use mp_sexp::NameTable;
use mp_typing::CheckedFactor;
use std::alloc::Global;

/// Adds the names of terms.
fn add_terms<'a>(names: &mut NameTable<'a>, terms: &'a TermList) -> Result<(), OutOfMemory>
    ensures { OnOk result (names.new ≡ names.old ++ map name_of_term terms.now) }
{
    for term in terms.as_slice() {
        names.push(term.name())?;
    }
    Ok(())
}

/// Adds the names of an atom.
#[tactic(auto, using(mp_forms::proofs::BuildSteps::append_steps))]
fn add_atom<'a>(names: &mut NameTable<'a>, atom: &'a Atom) -> Result<(), OutOfMemory>
    ensures { OnOk result (names.new ≡ names.old ++ names_of_atom atom.now) }
{
    names.push(&atom.word.name)?;
    add_terms(names, &atom.terms)
}

/// Adds the names of atoms.
#[tactic(auto, using(mp_forms::proofs::BuildSteps::append_steps))]
fn add_atoms<'a>(names: &mut NameTable<'a>, atoms: &'a AtomList) -> Result<(), OutOfMemory>
    ensures { OnOk result (names.new ≡ names.old ++ flat_map names_of_atom atoms.now) }
{
    for atom in atoms.as_slice() {
        add_atom(names, atom)?;
    }
    Ok(())
}

/// Adds the names of an action's effects.
#[tactic(auto, using(mp_forms::proofs::BuildSteps::append_steps))]
fn add_schema<'a>(names: &mut NameTable<'a>, schema: &'a Schema) -> Result<(), OutOfMemory>
    ensures { OnOk result (names.new ≡ names.old ++ names_of_schema schema.now) }
{
    add_atoms(names, &schema.add)?;
    add_atoms(names, &schema.del)
}

/// Adds the names of the effects of actions.
#[tactic(auto, using(mp_forms::proofs::BuildSteps::append_steps))]
fn add_schemas<'a>(names: &mut NameTable<'a>, schemas: &'a SchemaList) -> Result<(), OutOfMemory>
    ensures { OnOk result (names.new ≡ names.old ++ flat_map names_of_schema schemas.now) }
{
    for schema in schemas.as_slice() {
        add_schema(names, schema)?;
    }
    Ok(())
}

/// Adds the names of functions with values.
#[tactic(auto, using(mp_forms::proofs::BuildSteps::append_steps))]
fn add_values<'a>(names: &mut NameTable<'a>, values: &'a ValueList) -> Result<(), OutOfMemory>
    ensures { OnOk result (names.new ≡ names.old ++ flat_map names_of_value values.now) }
{
    for value in values.as_slice() {
        add_atom(names, &value.of)?;
    }
    Ok(())
}

/// Adds the names of objects.
fn add_objects<'a>(names: &mut NameTable<'a>, objects: &'a TypedList) -> Result<(), OutOfMemory>
    ensures { OnOk result (names.new ≡ names.old ++ map (λ o. o.word.name) objects.now) }
{
    for object in objects.as_slice() {
        names.push(&object.word.name)?;
    }
    Ok(())
}

/// Adds the names of a factor.
#[tactic(auto, using(mp_forms::proofs::BuildSteps::append_steps))]
fn add_factor<'a>(names: &mut NameTable<'a>, factor: &'a Factor) -> Result<(), OutOfMemory>
    ensures { OnOk result (names.new ≡ names.old ++ names_of_factor factor.now) }
{
    add_objects(names, &factor.domain.constants)?;
    add_objects(names, &factor.problem.objects)?;
    add_schemas(names, &factor.domain.schemas)?;
    add_atoms(names, &factor.problem.init)?;
    add_values(names, &factor.problem.values)
}

/// The names of a team: those of its objects, and those that stand in effects, in initial facts and in values. A name
/// that stands in several places is there several times.
#[tactic(auto, using(mp_forms::proofs::BuildSteps::append_steps))]
pub fn team_names<'a>(
    alloc: Global,
    factors: &'a [CheckedFactor],
) -> Result<NameTable<'a>, OutOfMemory>
    ensures { IfOk result (λ names. names ≡ flat_map names_of_factor factors.now) }
{
    let mut names = NameTable::new(alloc);
    for factor in factors {
        add_factor(&mut names, factor.factor())?;
    }
    Ok(names)
}
