//! Actions in numbers.

ghost use Rattle.std.specs.Prelude.{◌≡◌, ◌&&◌, not, map, IfOk, if◌then◌else◌};
ghost use Rattle.mp_joint.specs.Grounding.{asked_atoms, negated_atoms};
ghost use Rattle.mp_lifting.specs.Lifting.{lifted_amount, amounts_of, lifted_atom, lifted_where, lifted_action};
ghost use Rattle.mp_lifting.specs.Views.{is_of};

use crate::lifted_atoms::{has_sign, lift_amount, lift_atom};
use crate::members::all_members;
use crate::shown::Shown;
use crate::vocabulary::Vocabulary;
use mp_forms::{AtomList, IncreaseList, Literal, LiteralList, Schema, TypedList};
use mp_lifted::{Amount, LiftedAction, LiftedAtom};
use mp_list::{List, OutOfMemory};
use mp_sexp::Name;
use mp_typing::CheckedFactor;
use std::alloc::Global;

/// A part of a condition.
#[derive(Clone, Copy)]
struct Part {
    /// Whether it has the literals that the condition asks for, or those that it has under `not`.
    positive: bool,
    /// Whether it has those whose predicates actions change, or the static ones.
    changed: bool,
}

/// Whether a predicate is changed by actions, or whether it is static.
fn is_wanted(shown: &Shown<'_>, changed: bool, predicate: &Name) -> bool
    ensures { result ≡ (if changed then is_of shown.now.privates shown.now.own shown.now.shown predicate.now
        else not (is_of shown.now.privates shown.now.own shown.now.shown predicate.now)) }
{
    if changed {
        shown.holds(predicate)
    } else {
        !shown.holds(predicate)
    }
}

/// Whether a literal is in a part of a condition.
fn is_in_part(shown: &Shown<'_>, literal: &Literal, part: Part) -> bool
    ensures { result ≡ ((if part.positive then literal.now.positive else not literal.now.positive)
        && (if part.changed then is_of shown.now.privates shown.now.own shown.now.shown literal.now.atom.word.name
        else not (is_of shown.now.privates shown.now.own shown.now.shown literal.now.atom.word.name))) }
{
    has_sign(literal, part.positive) && is_wanted(shown, part.changed, &literal.atom.word.name)
}

/// The atoms in numbers that stand in a part of an action's condition.
fn parted(
    alloc: Global,
    vocabulary: &Vocabulary<'_>,
    shown: &Shown<'_>,
    schema: &Schema,
    part: Part,
) -> Result<List<LiftedAtom>, OutOfMemory>
    ensures { IfOk result (λ made. made ≡ lifted_where vocabulary.now
        (λ p. if part.changed then is_of shown.now.privates shown.now.own shown.now.shown p
        else not (is_of shown.now.privates shown.now.own shown.now.shown p))
        schema.now.params
        (if part.positive then asked_atoms schema.now.pre else negated_atoms schema.now.pre)) }
{
    let names = &vocabulary.predicates;
    let mut made = List::new(alloc);
    for literal in schema.pre.as_slice() {
        if is_in_part(shown, literal, part) {
            made.push(lift_atom(alloc, names, vocabulary, &schema.params, &literal.atom)?)?;
        }
    }
    Ok(made)
}

/// Atoms in numbers.
fn lifted_atoms(
    alloc: Global,
    vocabulary: &Vocabulary<'_>,
    params: &TypedList,
    atoms: &AtomList,
) -> Result<List<LiftedAtom>, OutOfMemory>
    ensures { IfOk result (λ made. made ≡ map (lifted_atom vocabulary.now params.now) atoms.now) }
{
    let mut made = List::with_capacity(alloc, atoms.len())?;
    for atom in atoms.as_slice() {
        made.push(lift_atom(alloc, &vocabulary.predicates, vocabulary, params, atom)?)?;
    }
    Ok(made)
}

/// What increases add, in numbers.
fn lifted_amounts(
    alloc: Global,
    vocabulary: &Vocabulary<'_>,
    params: &TypedList,
    increases: &IncreaseList,
) -> Result<List<Amount>, OutOfMemory>
    ensures { IfOk result (λ made. made ≡ map (lifted_amount vocabulary.now params.now) increases.now) }
{
    let mut made = List::with_capacity(alloc, increases.len())?;
    for increase in increases.as_slice() {
        made.push(lift_amount(alloc, vocabulary, params, increase)?)?;
    }
    Ok(made)
}

/// What the cost of an action is the sum of.
fn amounts(
    alloc: Global,
    vocabulary: &Vocabulary<'_>,
    metric: bool,
    schema: &Schema,
) -> Result<List<Amount>, OutOfMemory>
    ensures { IfOk result (λ made. made ≡ amounts_of vocabulary.now metric schema.now) }
{
    if metric {
        return lifted_amounts(alloc, vocabulary, &schema.params, &schema.increases);
    }
    let mut made = List::with_capacity(alloc, 1)?;
    made.push(Amount::Number(1))?;
    Ok(made)
}

/// The parts of a condition, of those predicates that actions change or of the static ones.
#[derive(Drop)]
struct Condition {
    positive: List<LiftedAtom>,
    negative: List<LiftedAtom>,
}

/// What of an action's condition is of the predicates that actions change, or of the static ones.
fn condition_of(
    alloc: Global,
    vocabulary: &Vocabulary<'_>,
    shown: &Shown<'_>,
    schema: &Schema,
    changed: bool,
) -> Result<Condition, OutOfMemory>
    ensures positive { IfOk result (λ made. made.positive ≡ lifted_where vocabulary.now
        (λ p. if changed then is_of shown.now.privates shown.now.own shown.now.shown p
        else not (is_of shown.now.privates shown.now.own shown.now.shown p))
        schema.now.params (asked_atoms schema.now.pre)) }
    ensures negative { IfOk result (λ made. made.negative ≡ lifted_where vocabulary.now
        (λ p. if changed then is_of shown.now.privates shown.now.own shown.now.shown p
        else not (is_of shown.now.privates shown.now.own shown.now.shown p))
        schema.now.params (negated_atoms schema.now.pre)) }
{
    let asked = Part {
        positive: true,
        changed,
    };
    let negated = Part {
        positive: false,
        changed,
    };
    Ok(Condition {
        positive: parted(alloc, vocabulary, shown, schema, asked)?,
        negative: parted(alloc, vocabulary, shown, schema, negated)?,
    })
}

/// The effects of an action, and what its cost is the sum of.
#[derive(Drop)]
struct Effect {
    add: List<LiftedAtom>,
    del: List<LiftedAtom>,
    amounts: List<Amount>,
}

/// The effects and the cost of an action in numbers.
fn effect_of(
    alloc: Global,
    vocabulary: &Vocabulary<'_>,
    metric: bool,
    schema: &Schema,
) -> Result<Effect, OutOfMemory>
    ensures add { IfOk result (λ made. made.add ≡ map (lifted_atom vocabulary.now schema.now.params) schema.now.add) }
    ensures del { IfOk result (λ made. made.del ≡ map (lifted_atom vocabulary.now schema.now.params) schema.now.del) }
    ensures amounts { IfOk result (λ made. made.amounts ≡ amounts_of vocabulary.now metric schema.now) }
{
    Ok(Effect {
        add: lifted_atoms(alloc, vocabulary, &schema.params, &schema.add)?,
        del: lifted_atoms(alloc, vocabulary, &schema.params, &schema.del)?,
        amounts: amounts(alloc, vocabulary, metric, schema)?,
    })
}

/// An action in numbers.
pub fn lift_action(
    alloc: Global,
    vocabulary: &Vocabulary<'_>,
    shown: &Shown<'_>,
    factor: &CheckedFactor,
    schema: &Schema,
) -> Result<LiftedAction, OutOfMemory>
    ensures { IfOk result (λ made. made ≡ lifted_action vocabulary.now
        (is_of shown.now.privates shown.now.own shown.now.shown) factor.now schema.now) }
{
    let metric = factor.factor().problem.metric;
    let members = all_members(alloc, factor, &schema.params)?;
    let fixed = condition_of(alloc, vocabulary, shown, schema, false)?;
    let changing = condition_of(alloc, vocabulary, shown, schema, true)?;
    let effect = effect_of(alloc, vocabulary, metric, schema)?;
    Ok(LiftedAction {
        members,
        static_positive: fixed.positive,
        static_negative: fixed.negative,
        positive: changing.positive,
        negative: changing.negative,
        add: effect.add,
        del: effect.del,
        amounts: effect.amounts,
    })
}
