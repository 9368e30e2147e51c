//! Factors in numbers.

ghost use Rattle.std.specs.Prelude.{◌≡◌, not, map, filter, IfOk, if◌then◌else◌};
ghost use Rattle.mp_joint.specs.Fact.{is_listed};
ghost use Rattle.mp_joint.specs.Grounding.{asked_atoms, negated_atoms};
ghost use Rattle.mp_lifting.specs.Lifting.{lifted_action, is_total_cost};
ghost use Rattle.mp_lifting.specs.Factors.{ground_atom, ground_value, known_atoms, lifted_factor};
ghost use Rattle.mp_lifting.specs.Privates.{private_in, is_private_atom};
ghost use Rattle.mp_lifting.specs.Views.{is_changed, is_of, has_complements};
ghost use Rattle.mp_lifting.specs.Vocabulary.{vocabulary_of};
ghost use Rattle.mp_joint.specs.FactorContribution.{privates_of};

use crate::actions::lift_action;
use crate::lifted_atoms::{has_sign, names_total_cost, number_atom};
use crate::privates::{PrivateNames, private_names};
use crate::shown::{Shown, changed, negated};
use crate::texts::read_known;
use crate::view::OpenView;
use crate::vocabulary::{Vocabulary, make_vocabulary};
use mp_forms::{AtomList, Factor, LiteralList, Problem, SchemaList, SignatureList, ValueList};
use mp_lifted::{GroundAtom, GroundValue, LiftedAction, LiftedFactor};
use mp_list::{List, OutOfMemory};
use mp_sexp::NameTable;
use mp_typing::CheckedFactor;
use std::alloc::Global;

/// For each predicate whether something is so of it.
fn flags_of(
    alloc: Global,
    shown: &Shown<'_>,
    predicates: &SignatureList,
) -> Result<List<bool>, OutOfMemory>
    ensures { IfOk result (λ flags. flags
        ≡ map (λ s. is_of shown.now.privates shown.now.own shown.now.shown s.word.name) predicates.now) }
{
    let mut flags = List::with_capacity(alloc, predicates.len())?;
    for signature in predicates.as_slice() {
        flags.push(shown.holds(&signature.word.name))?;
    }
    Ok(flags)
}

/// For each of these names whether it is in a table.
fn flags_in(
    alloc: Global,
    names: &NameTable<'_>,
    table: &NameTable<'_>,
) -> Result<List<bool>, OutOfMemory>
    ensures { IfOk result (λ flags. flags ≡ map (λ n. is_listed n table.now) names.now) }
{
    let mut flags = List::with_capacity(alloc, names.len())?;
    for name in names.as_slice() {
        flags.push(table.contains(name))?;
    }
    Ok(flags)
}

/// Actions in numbers, where this is what the agents show of the predicates that actions change.
fn lifted_actions(
    alloc: Global,
    vocabulary: &Vocabulary<'_>,
    shown: &Shown<'_>,
    factor: &CheckedFactor,
    schemas: &SchemaList,
) -> Result<List<LiftedAction>, OutOfMemory>
    ensures { IfOk result (λ made. made ≡ map
        (lifted_action vocabulary.now (is_of shown.now.privates shown.now.own shown.now.shown) factor.now) schemas.now) }
{
    let mut made = List::with_capacity(alloc, schemas.len())?;
    for schema in schemas.as_slice() {
        made.push(lift_action(alloc, vocabulary, shown, factor, schema)?)?;
    }
    Ok(made)
}

/// The actions of a factor in numbers.
fn actions_of(
    alloc: Global,
    vocabulary: &Vocabulary<'_>,
    factor: &CheckedFactor,
    view: &OpenView,
) -> Result<List<LiftedAction>, OutOfMemory>
    ensures { IfOk result (λ made. made ≡ map
        (lifted_action vocabulary.now (is_changed factor.now view.now) factor.now) factor.now.domain.schemas) }
{
    let whole = factor.factor();
    let changes = changed(alloc, whole, view)?;
    lifted_actions(alloc, vocabulary, &changes, factor, &whole.domain.schemas)
}

/// Those initial facts that are private, in numbers.
fn private_atoms(
    alloc: Global,
    vocabulary: &Vocabulary<'_>,
    privates: &PrivateNames<'_>,
    atoms: &AtomList,
) -> Result<List<GroundAtom>, OutOfMemory>
    ensures { IfOk result (λ made. made ≡ map (ground_atom vocabulary.now)
        (filter (is_private_atom (private_in privates.now)) atoms.now)) }
{
    let mut made = List::new(alloc);
    for atom in atoms.as_slice() {
        if privates.has(atom) {
            made.push(number_atom(alloc, &vocabulary.predicates, vocabulary, atom)?)?;
        }
    }
    Ok(made)
}

/// The facts that goals ask for, or those that they negate, in numbers.
fn goal_atoms(
    alloc: Global,
    vocabulary: &Vocabulary<'_>,
    goals: &LiteralList,
    positive: bool,
) -> Result<List<GroundAtom>, OutOfMemory>
    ensures { IfOk result (λ made. made ≡ map (ground_atom vocabulary.now)
        (if positive then asked_atoms goals.now else negated_atoms goals.now)) }
{
    let mut made = List::new(alloc);
    for goal in goals.as_slice() {
        if has_sign(goal, positive) {
            made.push(number_atom(alloc, &vocabulary.predicates, vocabulary, &goal.atom)?)?;
        }
    }
    Ok(made)
}

/// Values in numbers, but for those of the total cost.
fn ground_values(
    alloc: Global,
    vocabulary: &Vocabulary<'_>,
    values: &ValueList,
) -> Result<List<GroundValue>, OutOfMemory>
    ensures { IfOk result (λ made. made ≡ map (ground_value vocabulary.now)
        (filter (λ v. not (is_total_cost v.of)) values.now)) }
{
    let mut made = List::new(alloc);
    for value in values.as_slice() {
        if !names_total_cost(&value.of) {
            let of = number_atom(alloc, &vocabulary.functions, vocabulary, &value.of)?;
            made.push(GroundValue {
                of,
                cost: value.cost,
            })?;
        }
    }
    Ok(made)
}

/// What is private, and which predicates have complements.
#[derive(Drop)]
struct Marks {
    private_predicates: List<bool>,
    negated_predicates: List<bool>,
    private_objects: List<bool>,
}

/// The marks of a factor's predicates and objects.
fn marks_of(
    alloc: Global,
    factor: &Factor,
    view: &OpenView,
    names: &Vocabulary<'_>,
    privates: &PrivateNames<'_>,
) -> Result<Marks, OutOfMemory>
    ensures private_predicates { IfOk result (λ made. made.private_predicates
        ≡ map (λ p. is_listed p privates.now.predicates) names.now.predicates) }
    ensures negated_predicates { IfOk result (λ made. made.negated_predicates
        ≡ map (λ s. has_complements factor.now view.now s.word.name) factor.now.domain.predicates) }
    ensures private_objects { IfOk result (λ made. made.private_objects
        ≡ map (λ o. is_listed o privates.now.objects) names.now.objects) }
{
    let complements = negated(alloc, factor, view)?;
    Ok(Marks {
        private_predicates: flags_in(alloc, &names.predicates, &privates.predicates)?,
        negated_predicates: flags_of(alloc, &complements, &factor.domain.predicates)?,
        private_objects: flags_in(alloc, &names.objects, &privates.objects)?,
    })
}

/// The private facts of a problem and those that agents show, goals and values.
#[derive(Drop)]
struct Facts {
    init: List<GroundAtom>,
    known: List<GroundAtom>,
    goals: List<GroundAtom>,
    avoided: List<GroundAtom>,
    values: List<GroundValue>,
}

/// The private facts of a problem in numbers, those that agents show, goals and values.
fn facts_of(
    alloc: Global,
    problem: &Problem,
    view: &OpenView,
    names: &Vocabulary<'_>,
    privates: &PrivateNames<'_>,
) -> Result<Facts, OutOfMemory>
    ensures { IfOk result (λ made. made ≡ record {
      init = map (ground_atom names.now) (filter (is_private_atom (private_in privates.now)) problem.now.init);
      known = known_atoms names.now view.now.init;
      goals = map (ground_atom names.now) (asked_atoms problem.now.goals);
      avoided = map (ground_atom names.now) (negated_atoms problem.now.goals);
      values = map (ground_value names.now) (filter (λ v. not (is_total_cost v.of)) problem.now.values);
    }) }
{
    Ok(Facts {
        init: private_atoms(alloc, names, privates, &problem.init)?,
        known: read_known(alloc, names, &view.init)?,
        goals: goal_atoms(alloc, names, &problem.goals, true)?,
        avoided: goal_atoms(alloc, names, &problem.goals, false)?,
        values: ground_values(alloc, names, &problem.values)?,
    })
}

/// A factor in numbers by the vocabulary of its names and by those of them that are private.
fn numbered_by(
    alloc: Global,
    factor: &CheckedFactor,
    view: &OpenView,
    names: &Vocabulary<'_>,
    privates: &PrivateNames<'_>,
) -> Result<LiftedFactor, OutOfMemory>
    requires names { names.now ≡ vocabulary_of factor.now }
    requires privates { private_in privates.now ≡ privates_of factor.now }
    ensures { IfOk result (λ made. made ≡ lifted_factor factor.now view.now) }
{
    let whole = factor.factor();
    let marks = marks_of(alloc, whole, view, names, privates)?;
    let actions = actions_of(alloc, names, factor, view)?;
    let facts = facts_of(alloc, &whole.problem, view, names, privates)?;
    Ok(LiftedFactor {
        private_predicates: marks.private_predicates,
        negated_predicates: marks.negated_predicates,
        private_objects: marks.private_objects,
        actions,
        init: facts.init,
        known: facts.known,
        goals: facts.goals,
        avoided: facts.avoided,
        values: facts.values,
    })
}

/// A factor in numbers, as an agent knows it that has seen this of all agents. Refuses only for want of memory.
pub fn lift(
    alloc: Global,
    factor: &CheckedFactor,
    view: &OpenView,
) -> Result<LiftedFactor, OutOfMemory>
    ensures { IfOk result (λ made. made ≡ lifted_factor factor.now view.now) }
{
    let names = make_vocabulary(alloc, factor.factor())?;
    let privates = private_names(alloc, factor.factor())?;
    numbered_by(alloc, factor, view, &names, &privates)
}
