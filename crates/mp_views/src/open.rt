//! What an agent shows of its factor before grounding.

ghost use Rattle.std.specs.Prelude.{◌≡◌, ◌++◌, ◌∷◌, [], not, map, filter, IfOk, OnOk};
ghost use Rattle.std.specs.List.{flat_map};
ghost use Rattle.std.specs.Option.{is_none};
ghost use Rattle.mp_joint.specs.Fact.{is_listed};
ghost use Rattle.mp_joint.specs.Grounding.{negated_atoms, fact_of};
ghost use Rattle.mp_lifting.specs.Privates.{private_in};
ghost use Rattle.mp_lifting.specs.Texts.{fact_text};
ghost use Rattle.mp_lifting.specs.Views.{predicates_of, changed_predicates, negated_predicates};
ghost use Rattle.mp_views.specs.Sorted.{sorted_once as once_sorted};
ghost use Rattle.mp_views.specs.Opened.{open_view as view_of, joined};

use crate::sorted::sorted_once;
use crate::spelling::atom_text;
use mp_forms::{Atom, AtomList, Factor, LiteralList, Schema, SchemaList};
use mp_lifting::{OpenView, PrivateNames, private_names};
use mp_list::{Copied, List, OutOfMemory};
use mp_sexp::{Name, NameTable};
use mp_typing::CheckedFactor;
use std::alloc::Global;

/// Adds a name, where it is not private.
fn add_public(out: &mut Vec<Name>, privates: &NameTable<'_>, name: &Name) -> Result<(), OutOfMemory>
    ensures { OnOk result (out.new.items
        ≡ out.old.items ++ filter (λ n. not (is_listed n privates.now)) (name.now ∷ [])) }
{
    if !privates.contains(name) {
        out.push(name.copy()?)?;
    }
    Ok(())
}

/// Adds the predicates of atoms, where they are not private.
fn add_atoms(
    out: &mut Vec<Name>,
    privates: &NameTable<'_>,
    atoms: &AtomList,
) -> Result<(), OutOfMemory>
    ensures { OnOk result (out.new.items
        ≡ out.old.items ++ filter (λ n. not (is_listed n privates.now)) (predicates_of atoms.now)) }
{
    for atom in atoms.as_slice() {
        add_public(out, privates, &atom.word.name)?;
    }
    Ok(())
}

/// Adds the predicates that stand under `not`, where they are not private.
fn add_negated(
    out: &mut Vec<Name>,
    privates: &NameTable<'_>,
    literals: &LiteralList,
) -> Result<(), OutOfMemory>
    ensures { OnOk result (out.new.items ≡ out.old.items
        ++ filter (λ n. not (is_listed n privates.now)) (predicates_of (negated_atoms literals.now))) }
{
    for literal in literals.as_slice() {
        if !literal.positive {
            add_public(out, privates, &literal.atom.word.name)?;
        }
    }
    Ok(())
}

/// Adds the predicates that an action changes, where they are not private.
fn add_changed(
    out: &mut Vec<Name>,
    privates: &NameTable<'_>,
    schema: &Schema,
) -> Result<(), OutOfMemory>
    ensures { OnOk result (out.new.items ≡ out.old.items ++ filter (λ n. not (is_listed n privates.now))
        (predicates_of schema.now.add ++ predicates_of schema.now.del)) }
{
    add_atoms(out, privates, &schema.add)?;
    add_atoms(out, privates, &schema.del)
}

/// The predicates that actions change, where they are not private.
fn public_changed(
    alloc: Global,
    privates: &NameTable<'_>,
    schemas: &SchemaList,
) -> Result<Vec<Name>, OutOfMemory>
    ensures { IfOk result (λ out. out.items ≡ filter (λ n. not (is_listed n privates.now))
        (flat_map (λ s. predicates_of s.add ++ predicates_of s.del) schemas.now)) }
{
    let mut out = Vec::new(alloc);
    for schema in schemas.as_slice() {
        add_changed(&mut out, privates, schema)?;
    }
    Ok(out)
}

/// The predicates that stand under `not` in preconditions, where they are not private.
fn public_avoided(
    alloc: Global,
    privates: &NameTable<'_>,
    schemas: &SchemaList,
) -> Result<Vec<Name>, OutOfMemory>
    ensures { IfOk result (λ out. out.items ≡ filter (λ n. not (is_listed n privates.now))
        (flat_map (λ s. predicates_of (negated_atoms s.pre)) schemas.now)) }
{
    let mut out = Vec::new(alloc);
    for schema in schemas.as_slice() {
        add_negated(&mut out, privates, &schema.pre)?;
    }
    Ok(out)
}

/// The predicates that stand under `not` in preconditions and goals, where they are not private.
fn public_negated(
    alloc: Global,
    privates: &NameTable<'_>,
    schemas: &SchemaList,
    goals: &LiteralList,
) -> Result<Vec<Name>, OutOfMemory>
    ensures { IfOk result (λ out. out.items ≡ filter (λ n. not (is_listed n privates.now))
        (flat_map (λ s. predicates_of (negated_atoms s.pre)) schemas.now ++ predicates_of (negated_atoms goals.now))) }
{
    let mut out = public_avoided(alloc, privates, schemas)?;
    add_negated(&mut out, privates, goals)?;
    Ok(out)
}

/// Adds the text of a fact, where it is public.
fn add_fact(
    alloc: Global,
    out: &mut Vec<Name>,
    scratch: &mut Vec<u8>,
    privates: &PrivateNames<'_>,
    atom: &Atom,
) -> Result<(), OutOfMemory>
    ensures { OnOk result (out.new.items ≡ out.old.items ++ map fact_text (filter (λ f. is_none f.owner)
        (fact_of 1 (private_in privates.now) [] [] atom.now ∷ []))) }
{
    if !privates.has(atom) {
        out.push(atom_text(alloc, scratch, atom)?)?;
    }
    Ok(())
}

/// The texts of those initial facts that are public.
fn public_facts(
    alloc: Global,
    privates: &PrivateNames<'_>,
    atoms: &AtomList,
) -> Result<Vec<Name>, OutOfMemory>
    ensures { IfOk result (λ out. out.items ≡ map fact_text (filter (λ f. is_none f.owner)
        (map (fact_of 1 (private_in privates.now) [] []) atoms.now))) }
{
    let mut out = Vec::new(alloc);
    let mut scratch = Vec::new(alloc);
    for atom in atoms.as_slice() {
        add_fact(alloc, &mut out, &mut scratch, privates, atom)?;
    }
    Ok(out)
}

/// What is shown before grounding, in any order.
#[derive(Drop)]
struct Shown {
    changed: Vec<Name>,
    negated: Vec<Name>,
    init: Vec<Name>,
}

/// What is shown, in the order of its bytes, each once.
fn in_order(alloc: Global, shown: Shown) -> Result<OpenView, OutOfMemory>
    ensures { IfOk result (λ view. view ≡ record {
      changed = once_sorted shown.changed.items;
      negated = once_sorted shown.negated.items;
      init = once_sorted shown.init.items;
    }) }
{
    Ok(OpenView {
        changed: sorted_once(alloc, shown.changed)?,
        negated: sorted_once(alloc, shown.negated)?,
        init: sorted_once(alloc, shown.init)?,
    })
}

/// What a factor with these private names shows.
fn shown_by(
    alloc: Global,
    privates: &PrivateNames<'_>,
    factor: &Factor,
) -> Result<Shown, OutOfMemory>
    ensures changed { IfOk result (λ shown. shown.changed.items
        ≡ filter (λ n. not (is_listed n privates.now.predicates)) (changed_predicates factor.now)) }
    ensures negated { IfOk result (λ shown. shown.negated.items
        ≡ filter (λ n. not (is_listed n privates.now.predicates)) (negated_predicates factor.now)) }
    ensures init { IfOk result (λ shown. shown.init.items ≡ map fact_text (filter (λ f. is_none f.owner)
        (map (fact_of 1 (private_in privates.now) [] []) factor.now.problem.init))) }
{
    let predicates = &privates.predicates;
    let schemas = &factor.domain.schemas;
    Ok(Shown {
        changed: public_changed(alloc, predicates, schemas)?,
        negated: public_negated(alloc, predicates, schemas, &factor.problem.goals)?,
        init: public_facts(alloc, privates, &factor.problem.init)?,
    })
}

/// What an agent shows of its factor before grounding: the public predicates that its actions change, those that stand
/// under `not`, and its public initial facts. Refuses only for want of memory.
pub fn open_view(alloc: Global, factor: &CheckedFactor) -> Result<OpenView, OutOfMemory>
    ensures { IfOk result (λ view. view ≡ view_of factor.now) }
{
    let whole = factor.factor();
    let privates = private_names(alloc, whole)?;
    let shown = shown_by(alloc, &privates, whole)?;
    let view = in_order(alloc, shown)?;
    Ok(view)
}

/// Adds copies of names.
fn add_copies(out: &mut Vec<Name>, names: &List<Name>) -> Result<(), OutOfMemory>
    ensures { OnOk result (out.new.items ≡ out.old.items ++ names.now) }
{
    for name in names.as_slice() {
        out.push(name.copy()?)?;
    }
    Ok(())
}

/// What some agent shows.
fn shown_in(alloc: Global, views: &[OpenView]) -> Result<Shown, OutOfMemory>
    ensures changed { IfOk result (λ shown. shown.changed.items ≡ flat_map (λ v. v.changed) views.now) }
    ensures negated { IfOk result (λ shown. shown.negated.items ≡ flat_map (λ v. v.negated) views.now) }
    ensures init { IfOk result (λ shown. shown.init.items ≡ flat_map (λ v. v.init) views.now) }
{
    let mut changed = Vec::new(alloc);
    let mut negated = Vec::new(alloc);
    let mut init = Vec::new(alloc);
    for view in views {
        add_copies(&mut changed, &view.changed)?;
        add_copies(&mut negated, &view.negated)?;
        add_copies(&mut init, &view.init)?;
    }
    Ok(Shown {
        changed,
        negated,
        init,
    })
}

/// What several agents show together before grounding. Refuses only for want of memory.
pub fn join(alloc: Global, views: &[OpenView]) -> Result<OpenView, OutOfMemory>
    ensures { IfOk result (λ view. view ≡ joined views.now) }
{
    let shown = shown_in(alloc, views)?;
    let view = in_order(alloc, shown)?;
    Ok(view)
}
