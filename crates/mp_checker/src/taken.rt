//! One step of one agent.

ghost use Rattle.std.specs.Prelude.{◌≡◌, ◌≤◌, map, Some, None, IfOk, IfSome, OnOk, IsSome};
ghost use Rattle.std.specs.List.{find};
ghost use Rattle.std.specs.Option.{option_map};
ghost use Rattle.std.specs.Str.{bytes_eq};
ghost use Rattle.mp_forms.specs.Limits.{SchemaFits};
ghost use Rattle.mp_joint.specs.FactorContribution.{privates_of, instance_at, instance_of_schema};
ghost use Rattle.mp_plan_verdict.specs.Written.{signed_facts};
ghost use Rattle.mp_checker.specs.At.{named_state};
ghost use Rattle.mp_checker.specs.AgentView.{Covers, names_of, agent_of, factor_of};
ghost use Rattle.mp_checker.specs.Marked.{HaveStayed, true_facts};
ghost use Rattle.mp_checker.specs.Numbering.{numbered_action, numbered_literal};
ghost use Rattle.mp_checker.specs.Places.{AreAsked, HasGrown};
ghost use Rattle.mp_checker.specs.Stepped.{IsStepped, step_in};
ghost use Rattle.mp_checker.specs.Taken.{IfDone, IsTaken, IsBound, failing as failing_of};
ghost use Rattle.mp_checker.specs.Words.{names_of_schema};

use crate::asked::first_failing;
use crate::changes::change;
use crate::cost::cost_at;
use crate::factor::AgentFactor;
use crate::facts::Facts;
use crate::found::found_action;
use crate::numbered::{NumberedAction, NumberedLiteral};
use crate::room::Room;
use crate::standing::add_standing;
use crate::told::signed_fact;
use mp_forms::{LiteralList, Schema, TypedList};
use mp_joint::{PlanStep, SignedFact};
use mp_list::{List, OutOfMemory};
use mp_sexp::NameList;
use std::alloc::Global;

/// What is found of a step.
#[derive(Drop)]
pub enum Taken {
    /// It is no instance.
    NoAction,
    /// It asks for something that does not hold, this first.
    Fails(SignedFact),
    /// It is taken, and costs this.
    Done(u64),
}

/// A condition where objects stand for parameters.
#[derive(Clone, Copy)]
pub struct Asked<'s> {
    pub literals: &'s List<NumberedLiteral>,
    /// The same as they are written.
    pub written: &'s LiteralList,
    pub params: &'s TypedList,
    pub objects: &'s NameList,
}

/// The first literal that does not hold, by its names: none where all hold, and then the numbers of their facts are
/// noted. Refuses only for want of memory.
pub fn failing(
    alloc: Global,
    factor: &AgentFactor<'_, '_>,
    facts: &mut Facts,
    room: &mut Room,
    asked: Asked<'_>,
) -> Result<Option<SignedFact>, OutOfMemory>
    requires numbered { asked.literals.now ≡ map (numbered_literal (names_of factor.now)
        (privates_of (factor_of factor.now)) asked.params.now) asked.written.now }
    requires bound { IsBound (names_of factor.now) (factor_of factor.now)
        asked.params.now asked.objects.now room.old.args.items }
    ensures failing { IfOk result (λ first. first
        ≡ failing_of (named_state (names_of factor.now) (true_facts facts.old))
        (signed_facts (agent_of factor.now) (factor_of factor.now)
        asked.entry.params.now asked.entry.objects.now asked.entry.written.now)) }
    ensures args { room.new.args.items ≡ room.old.args.items }
    ensures grows { OnOk result (HasGrown facts.old.known.keys facts.new.known.keys) }
    ensures stays { OnOk result (HaveStayed facts.old facts.new) }
    ensures noted { IfOk result (λ first. first ≡ None
        → AreAsked facts.new.known.keys (agent_of factor.now) room.old.args.items asked.entry.literals.now
        room.new.places.needs.items room.new.places.against.items) }
{
    let args = room.args.as_slice();
    let literals = asked.literals.as_slice();
    let agent = factor.agent;
    let Some(place) = first_failing(
        alloc,
        facts,
        &mut room.numbers,
        agent,
        args,
        literals,
        &mut room.places,
    )?
    else {
        return Ok(None);
    };
    let Some(literal) = asked.written.get(place) else {
        return Ok(None);
    };
    let privates = &factor.privates;
    Ok(Some(signed_fact(alloc, agent, privates, asked.params, asked.objects, literal)?))
}

/// What an action costs with the objects of a step: none where it is no instance with them. The objects are left in
/// numbers. Refuses only for want of memory.
pub fn instance_cost(
    factor: &AgentFactor<'_, '_>,
    room: &mut Room,
    schema: &Schema,
    action: &NumberedAction,
    objects: &NameList,
) -> Result<Option<u64>, OutOfMemory>
    requires action { action.now ≡ numbered_action (names_of factor.now) (factor_of factor.now) schema.now }
    requires fits { SchemaFits schema.now }
    ensures cost { IfOk result (λ cost. cost ≡ option_map (λ i. i.cost)
        (instance_of_schema (agent_of factor.now) (factor_of factor.now) objects.now schema.now)) }
    ensures small { IfOk result (λ cost. IfSome cost (λ c. c ≤ 16000000)) }
    ensures bound { IfOk result (λ cost. IsSome cost → IsBound (names_of factor.now) (factor_of factor.now)
        schema.now.params objects.now room.new.args.items) }
{
    factor.checked.factor().problem.comes_from_a_file();
    room.args.clear();
    let members = action.members.as_slice();
    let numbers = factor.numbers.as_slice();
    if !add_standing(
        &mut room.args,
        &factor.objects,
        numbers,
        members,
        objects.as_slice(),
    )? {
        return Ok(None);
    }
    let args = room.args.as_slice();
    cost_at(
        &factor.values,
        &mut room.numbers,
        args,
        action.amounts.as_slice(),
    )
}

/// A step whose action this is.
fn take_action(
    alloc: Global,
    factor: &AgentFactor<'_, '_>,
    facts: &mut Facts,
    room: &mut Room,
    schema: &Schema,
    action: &NumberedAction,
    step: &PlanStep,
) -> Result<Taken, OutOfMemory>
    requires action { action.now ≡ numbered_action (names_of factor.now) (factor_of factor.now) schema.now }
    requires fits { SchemaFits schema.now }
    requires covers { Covers (names_of factor.now) (names_of_schema schema.now) }
    requires found { find (λ s. bytes_eq s.word.name step.now.action)
        (factor_of factor.now).domain.schemas ≡ Some schema.now }
    ensures taken { IfOk result (IsTaken (agent_of factor.now) (factor_of factor.now)
        (named_state (names_of factor.now) (true_facts facts.old))
        (named_state (names_of factor.now) (true_facts facts.new)) step.now) }
    ensures grows { OnOk result (HasGrown facts.old.known.keys facts.new.known.keys) }
    ensures step { IfOk result (λ taken. IfDone taken (IsStepped (names_of factor.now) facts.new.known.keys
        (agent_of factor.now)
        (instance_at (agent_of factor.now) (factor_of factor.now) step.now.action step.now.args)
        (step_in (agent_of factor.now) room.new.places))) }
{
    let Some(cost) = instance_cost(factor, room, schema, action, &step.args)? else {
        return Ok(Taken::NoAction);
    };
    let asked = Asked {
        literals: &action.pre,
        written: &schema.pre,
        params: &schema.params,
        objects: &step.args,
    };
    if let Some(first) = failing(alloc, factor, facts, room, asked)? {
        return Ok(Taken::Fails(first));
    }
    change(alloc, facts, room, factor.agent, action)?;
    Ok(Taken::Done(cost))
}

/// A step of an agent: what is found of it, and, where all that it asks for holds, the state after it and the numbers of
/// its facts. Refuses only for want of memory.
pub fn take(
    alloc: Global,
    factor: &AgentFactor<'_, '_>,
    facts: &mut Facts,
    room: &mut Room,
    step: &PlanStep,
) -> Result<Taken, OutOfMemory>
    ensures taken { IfOk result (IsTaken (agent_of factor.now) (factor_of factor.now)
        (named_state (names_of factor.now) (true_facts facts.old))
        (named_state (names_of factor.now) (true_facts facts.new)) step.now) }
    ensures grows { OnOk result (HasGrown facts.old.known.keys facts.new.known.keys) }
    ensures step { IfOk result (λ taken. IfDone taken (IsStepped (names_of factor.now) facts.new.known.keys
        (agent_of factor.now)
        (instance_at (agent_of factor.now) (factor_of factor.now) step.now.action step.now.args)
        (step_in (agent_of factor.now) room.new.places))) }
{
    let Some(found) = found_action(factor, &step.action) else {
        return Ok(Taken::NoAction);
    };
    take_action(alloc, factor, facts, room, found.schema, found.action, step)
}
