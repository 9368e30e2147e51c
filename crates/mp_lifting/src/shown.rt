//! What an agent knows of its predicates.

ghost use Rattle.std.specs.Prelude.{◌≡◌, ◌++◌, IfOk, OnOk};
ghost use Rattle.std.specs.List.{flat_map};
ghost use Rattle.mp_joint.specs.FactorContribution.{privates_of};
ghost use Rattle.mp_joint.specs.Grounding.{negated_atoms};
ghost use Rattle.mp_lifting.specs.Views.{predicates_of, changed_predicates, negated_predicates, is_of};

use crate::privates::private_predicates;
use crate::view::OpenView;
use mp_forms::{AtomList, Factor, LiteralList, SchemaList};
use mp_list::OutOfMemory;
use mp_sexp::{Name, NameTable};
use std::alloc::Global;

/// The predicates of which something is so: the private ones, those that the own factor says, and those that agents
/// show.
#[derive(Drop)]
pub struct Shown<'a> {
    pub privates: NameTable<'a>,
    pub own: NameTable<'a>,
    pub shown: NameTable<'a>,
}

impl<'a> Shown<'a> {
    /// Whether it is so of a predicate.
    pub fn holds(&self, predicate: &Name) -> bool
        ensures { result ≡ is_of self.now.privates self.now.own self.now.shown predicate.now }
    {
        if self.privates.contains(predicate) {
            self.own.contains(predicate)
        } else {
            self.shown.contains(predicate)
        }
    }
}

/// Adds the predicates of atoms.
fn add_atoms<'a>(table: &mut NameTable<'a>, atoms: &'a AtomList) -> Result<(), OutOfMemory>
    ensures { OnOk result (table.new ≡ table.old ++ predicates_of atoms.now) }
{
    for atom in atoms.as_slice() {
        table.push(&atom.word.name)?;
    }
    Ok(())
}

/// Adds the predicates that stand under `not`.
fn add_negated<'a>(table: &mut NameTable<'a>, literals: &'a LiteralList) -> Result<(), OutOfMemory>
    ensures { OnOk result (table.new ≡ table.old ++ predicates_of (negated_atoms literals.now)) }
{
    for literal in literals.as_slice() {
        if !literal.positive {
            table.push(&literal.atom.word.name)?;
        }
    }
    Ok(())
}

/// The predicates that stand in an effect of an action.
fn changed_names<'a>(alloc: Global, schemas: &'a SchemaList) -> Result<NameTable<'a>, OutOfMemory>
    ensures { IfOk result (λ table. table
        ≡ flat_map (λ s. predicates_of s.add ++ predicates_of s.del) schemas.now) }
{
    let mut table = NameTable::new(alloc);
    for schema in schemas.as_slice() {
        add_atoms(&mut table, &schema.add)?;
        add_atoms(&mut table, &schema.del)?;
    }
    Ok(table)
}

/// The predicates that stand under `not` in a precondition or goal.
fn negated_names<'a>(
    alloc: Global,
    schemas: &'a SchemaList,
    goals: &'a LiteralList,
) -> Result<NameTable<'a>, OutOfMemory>
    ensures { IfOk result (λ table. table
        ≡ flat_map (λ s. predicates_of (negated_atoms s.pre)) schemas.now ++ predicates_of (negated_atoms goals.now)) }
{
    let mut table = NameTable::new(alloc);
    for schema in schemas.as_slice() {
        add_negated(&mut table, &schema.pre)?;
    }
    add_negated(&mut table, goals)?;
    Ok(table)
}

/// The predicates that actions change, as far as an agent knows.
pub fn changed<'a>(
    alloc: Global,
    factor: &'a Factor,
    view: &'a OpenView,
) -> Result<Shown<'a>, OutOfMemory>
    ensures { IfOk result (λ made. made ≡ record {
      privates = (privates_of factor.now).predicates;
      own = changed_predicates factor.now;
      shown = view.now.changed;
    }) }
{
    Ok(Shown {
        privates: private_predicates(alloc, &factor.domain.predicates)?,
        own: changed_names(alloc, &factor.domain.schemas)?,
        shown: NameTable::of(alloc, view.changed.as_slice())?,
    })
}

/// The predicates whose facts have complements, as far as an agent knows.
pub fn negated<'a>(
    alloc: Global,
    factor: &'a Factor,
    view: &'a OpenView,
) -> Result<Shown<'a>, OutOfMemory>
    ensures { IfOk result (λ made. made ≡ record {
      privates = (privates_of factor.now).predicates;
      own = negated_predicates factor.now;
      shown = view.now.negated;
    }) }
{
    Ok(Shown {
        privates: private_predicates(alloc, &factor.domain.predicates)?,
        own: negated_names(alloc, &factor.domain.schemas, &factor.problem.goals)?,
        shown: NameTable::of(alloc, view.negated.as_slice())?,
    })
}
