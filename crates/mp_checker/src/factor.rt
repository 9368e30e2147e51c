//! An agent's factor in numbers.

ghost use Rattle.std.specs.Prelude.{◌≡◌, map, IfOk};
ghost use Rattle.mp_checker.specs.AgentView.{Covers};
ghost use Rattle.mp_checker.specs.Words.{names_of_factor};

use crate::actions::numbered_actions;
use crate::fact::FactNumbers;
use crate::numbered::{NumberedAction, ObjectNumber};
use crate::objects::object_numbers;
use crate::values::kept_values;
use indexmap::IndexMap;
use mp_forms::SchemaList;
use mp_lifting::{PrivateNames, object_names, private_names};
use mp_list::{List, OutOfMemory};
use mp_sets::Agent;
use mp_sexp::NameTable;
use mp_typing::CheckedFactor;
use std::alloc::Global;
use std::marker::Model;

/// An agent's factor in numbers. Contracts see the names of the team, the agent and the factor.
#[derive(Drop)]
pub struct AgentFactor<'n, 'a> {
    /// The names of the team, whose places are their numbers.
    pub(crate) names: &'n NameTable<'a>,
    pub(crate) agent: Agent,
    pub(crate) checked: &'a CheckedFactor,
    pub(crate) privates: PrivateNames<'a>,
    /// The objects in object order.
    pub(crate) objects: NameTable<'a>,
    /// The same in numbers.
    pub(crate) numbers: List<ObjectNumber>,
    pub(crate) action_names: NameTable<'a>,
    pub(crate) actions: List<NumberedAction>,
    /// The first value of each function.
    pub(crate) values: IndexMap<FactNumbers, u64>,
}

impl<'n, 'a> Model for AgentFactor<'n, 'a> {
    ghost use Rattle.mp_checker.specs.AgentView.{AgentView};

    ghost Value = { AgentView };

    ghost use Rattle.mp_checker.specs.AgentFields.{agent_view, IsNumbered};

    ghost view = { agent_view };

    ghost invariant = { IsNumbered };
}

/// The names of actions.
fn names_of_actions<'a>(
    alloc: Global,
    schemas: &'a SchemaList,
) -> Result<NameTable<'a>, OutOfMemory>
    ensures { IfOk result (λ names. names ≡ map (λ s. s.word.name) schemas.now) }
{
    let mut names = NameTable::new(alloc);
    for schema in schemas.as_slice() {
        names.push(&schema.word.name)?;
    }
    Ok(names)
}

impl<'n, 'a> AgentFactor<'n, 'a> {
    /// The factor of an agent, where these are the names of its team. Refuses only for want of memory.
    pub fn new(
        alloc: Global,
        names: &'n NameTable<'a>,
        agent: Agent,
        checked: &'a CheckedFactor,
    ) -> Result<AgentFactor<'n, 'a>, OutOfMemory>
        requires { Covers names.now (names_of_factor checked.now) }
        ensures { IfOk result (λ made. made ≡ (names.now, agent, checked.now)) }
    {
        let factor = checked.factor();
        let domain = &factor.domain;
        let privates = private_names(alloc, factor)?;
        let objects = object_names(alloc, &domain.constants, &factor.problem.objects)?;
        let numbers = object_numbers(alloc, names, &privates, &objects)?;
        let action_names = names_of_actions(alloc, &domain.schemas)?;
        let actions = numbered_actions(
            alloc,
            names,
            &privates,
            checked,
            objects.len(),
            &domain.schemas,
        )?;
        let values = kept_values(alloc, names, &factor.problem.values)?;
        Ok(AgentFactor {
            names,
            agent,
            checked,
            privates,
            objects,
            numbers,
            action_names,
            actions,
            values,
        })
    }
}
