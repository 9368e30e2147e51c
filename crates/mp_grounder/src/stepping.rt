//! Own actions by their names.

ghost use Rattle.std.specs.Prelude.{◌≡◌, map, IfOk};
ghost use Rattle.mp_lifted.specs.Bound.{binding};
ghost use Rattle.mp_sexp.specs.Numbers.{name_at};
ghost use Rattle.mp_ground_laws.specs.Named.{step_of};

use crate::names::{Names, copied_names, object_names};
use mp_forms::{Factor, SchemaList};
use mp_joint::PlanStep;
use mp_lifted::BoundAction;
use mp_list::{Copied, OutOfMemory};
use mp_sets::Agent;
use mp_sexp::Name;
use mp_typing::CheckedFactor;
use std::alloc::Global;
use std::marker::Model;

/// A copy of the name of the action at a place: the empty name where there is none.
fn action_name(alloc: Global, schemas: &SchemaList, action: usize) -> Result<Name, OutOfMemory>
    ensures { IfOk result (λ name. name ≡ name_at (map (λ s. s.word.name) schemas.now) action) }
{
    match schemas.get(action) {
        Some(schema) => schema.word.name.copy(),
        None => Ok(Name::new(alloc)),
    }
}

/// The names by which the steps of an agent's plan are told, read off its factor once for all of them. Contracts see it
/// as the factor.
#[derive(Drop)]
pub struct StepNames<'a> {
    factor: &'a Factor,
    objects: Names<'a>,
}

impl<'a> Model for StepNames<'a> {
    ghost use Rattle.std.specs.Prelude.{◌≡◌};
    ghost use Rattle.mp_forms.specs.declared.factor.Factor.{Factor};
    ghost use Rattle.mp_grounder.specs.Numbered.{fact_names as names_of_facts};

    ghost Value = { Factor };

    ghost view = { λ s. s.factor.now };

    ghost invariant = { λ s. s.objects ≡ (names_of_facts s.factor.now).objects };
}

impl<'a> StepNames<'a> {
    /// The names of a factor, whose objects it goes through once. Refuses only for want of memory.
    pub fn new(alloc: Global, factor: &'a CheckedFactor) -> Result<StepNames<'a>, OutOfMemory>
        ensures { IfOk result (λ names. names ≡ factor.now) }
    {
        let factor = factor.factor();
        let objects = object_names(alloc, factor)?;
        Ok(StepNames { factor, objects })
    }

    /// A step of an agent's plan by its names, from the action of the factor and the objects that it stands for. It
    /// costs what its names do, however many objects there are. Refuses only for want of memory.
    pub fn step(
        &self,
        alloc: Global,
        me: Agent,
        step: BoundAction<'_>,
    ) -> Result<PlanStep, OutOfMemory>
        ensures { IfOk result (λ named. named ≡ step_of me self.now (binding step.entry)) }
    {
        let factor = self.factor;
        let action = action_name(alloc, &factor.domain.schemas, step.action)?;
        let args = copied_names(alloc, &self.objects, step.objects)?;
        Ok(PlanStep {
            agent: me,
            action,
            args,
        })
    }
}
