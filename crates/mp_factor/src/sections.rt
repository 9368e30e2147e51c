//! The sections of both files.

ghost use Rattle.std.specs.Prelude.{◌≡◌, ◌∷◌, [], codes, option_map, IfOk};
ghost use Rattle.std.specs.List.{filter, find};
ghost use Rattle.mp_sexp.specs.Node.{node_of, nodes_in};
ghost use Rattle.mp_forms.specs.Parts.{place_of, is_headed};
ghost use Rattle.mp_forms.specs.Reading.{Reading, at_most, each, misshapen, Says};
ghost use Rattle.mp_factor.specs.Found.{found_in, more_found};
ghost use Rattle.mp_forms.specs.Rules.Actions.{action_rule};
ghost use Rattle.mp_forms.specs.Rules.Sections.{in_section, requirement_rule, requirements_rule, listed_rule, named_rule, start_rule, goal_rule, is_total_cost, is_cost_metric, metric_rule, actions_rule};

use crate::counted::{Room, counted};
use crate::found::{
    Form, Found, add_item, check_each, read_alone, second, shape_fault, word_fault,
};
use crate::init_values::read_start;
use crate::literal::ConditionForm;
use crate::schema_values::ActionForm;
use crate::trees::{behind_first, has_head, is_keyword, is_list_tree, members, place};
use crate::typed_values::{Listing, read_typed};
use crate::word::NameForm;
use mp_forms::{FaultKind, LiteralList, SchemaList, Start, Word};
use mp_list::{List, OutOfMemory};
use mp_sexp::Tree;
use std::alloc::Global;

/// The first section that begins with this word.
fn section<'t>(sections: &'t [Tree], keyword: &[u8]) -> Option<&'t Tree>
    ensures { option_map (λ t. node_of t.now) result ≡ find (is_headed keyword.now) (nodes_in sections.now) }
{
    for tree in sections {
        if has_head(tree, keyword) {
            return Some(tree);
        }
    }
    None
}

/// Whether at most one section begins with this word.
fn check_single(alloc: Global, sections: &[Tree], keyword: &[u8]) -> Found<()>
    ensures { result ≡ found_in (at_most 1 (is_headed keyword.now) (λ n. misshapen (place_of n)) (nodes_in sections.now)) }
{
    let mut room = Room {
        found: Ok(()),
        left: 1,
    };
    for tree in sections {
        room = counted(
            alloc,
            room,
            has_head(tree, keyword),
            place(tree),
            FaultKind::Shape,
        );
    }
    room.found
}

/// What the section that begins with this word says, by its form, or what is found where it is missing. Refuses only for
/// want of memory.
pub fn read_section<T: Drop, F: Form<T>>(
    alloc: Global,
    form: &F,
    sections: &[Tree],
    keyword: &[u8],
    missing: Found<T>,
) -> Result<Found<T>, OutOfMemory>
    ensures { (reading : Reading T) → missing ≡ found_in reading → IfOk result (λ found. found
        ≡ found_in (in_section keyword.now (F.rule form.now) reading (nodes_in sections.now))) }
{
    let single = check_single(alloc, sections, keyword);
    match section(sections, keyword) {
        Some(tree) => Ok(second(single, form.read(alloc, tree)?)),
        None => Ok(second(single, missing)),
    }
}

/// What the section of a typed list says. Refuses only for want of memory.
#[tactic(auto, unfolding(mp_forms::specs::Rules::Sections::listed_rule))]
fn read_list<X: Drop, T: Drop, L: Listing<X, T>>(
    alloc: Global,
    listing: &L,
    tree: &Tree,
) -> Result<Found<List<X>>, OutOfMemory>
    ensures { IfOk result (λ found. found ≡ found_in (listed_rule (L.listing listing.now) (node_of tree.now))) }
{
    read_typed(alloc, listing, place(tree), behind_first(members(tree)))
}

/// What the section of a typed list that begins with this word says; nothing, where it is missing. Refuses only for want
/// of memory.
pub fn read_listed<X: Drop, T: Drop, L: Listing<X, T>>(
    alloc: Global,
    listing: &L,
    sections: &[Tree],
    keyword: &[u8],
) -> Result<Found<List<X>>, OutOfMemory>
    ensures { IfOk result (λ found. found ≡ found_in (in_section keyword.now (listed_rule (L.listing listing.now)) (Says []) (nodes_in sections.now))) }
{
    let single = check_single(alloc, sections, keyword);
    match section(sections, keyword) {
        Some(tree) => Ok(second(single, read_list(alloc, listing, tree)?)),
        None => Ok(second(single, Ok(List::new(alloc)))),
    }
}

/// A requirement.
#[derive(Clone, Copy)]
struct RequirementForm;

#[tactic(auto, unfolding(mp_forms::specs::Rules::Sections::requirement_rule))]
impl Form<()> for RequirementForm {
    ghost rule = { λ form node. requirement_rule node };

    fn read(&self, alloc: Global, tree: &Tree) -> Result<Found<()>, OutOfMemory> {
        if is_list_tree(tree) {
            Ok(shape_fault(alloc, place(tree)))
        } else if is_keyword(tree, b":unfactored-privacy") {
            word_fault(alloc, tree)
        } else {
            Ok(Ok(()))
        }
    }
}

/// The requirements.
#[derive(Clone, Copy)]
pub struct RequirementsForm;

#[tactic(auto, unfolding(mp_forms::specs::Rules::Sections::requirements_rule))]
impl Form<()> for RequirementsForm {
    ghost rule = { λ form node. requirements_rule node };

    fn read(&self, alloc: Global, tree: &Tree) -> Result<Found<()>, OutOfMemory> {
        check_each(alloc, &RequirementForm, behind_first(members(tree)))
    }
}

/// A word and a name.
#[derive(Clone, Copy)]
pub struct NamedForm;

#[tactic(auto, unfolding(mp_forms::specs::Rules::Sections::named_rule))]
impl Form<Word> for NamedForm {
    ghost rule = { λ form node. named_rule node };

    fn read(&self, alloc: Global, tree: &Tree) -> Result<Found<Word>, OutOfMemory> {
        read_alone(alloc, &NameForm, place(tree), behind_first(members(tree)))
    }
}

/// The facts and values at the start.
#[derive(Clone, Copy)]
pub struct StartForm;

#[tactic(auto, unfolding(mp_forms::specs::Rules::Sections::start_rule))]
impl Form<Start> for StartForm {
    ghost rule = { λ form node. start_rule node };

    fn read(&self, alloc: Global, tree: &Tree) -> Result<Found<Start>, OutOfMemory> {
        read_start(alloc, behind_first(members(tree)))
    }
}

/// The goal.
#[derive(Clone, Copy)]
pub struct GoalForm;

#[tactic(auto, unfolding(mp_forms::specs::Rules::Sections::goal_rule))]
impl Form<LiteralList> for GoalForm {
    ghost rule = { λ form node. goal_rule node };

    fn read(&self, alloc: Global, tree: &Tree) -> Result<Found<LiteralList>, OutOfMemory> {
        read_alone(
            alloc,
            &ConditionForm,
            place(tree),
            behind_first(members(tree)),
        )
    }
}

/// Whether these are the total cost alone.
fn names_cost(trees: &[Tree]) -> bool
    ensures { result ≡ is_total_cost (nodes_in trees.now) }
{
    match trees {
        [function] => is_keyword(function, b"total-cost"),
        _ => false,
    }
}

/// Whether these are `minimize` and `(total-cost)`.
fn asks_for_total_cost(trees: &[Tree]) -> bool
    ensures { result ≡ is_cost_metric (nodes_in trees.now) }
{
    match trees {
        [direction, target] => is_keyword(direction, b"minimize") && names_cost(members(target)),
        _ => false,
    }
}

/// The metric.
#[derive(Clone, Copy)]
pub struct MetricForm;

#[tactic(auto, unfolding(mp_forms::specs::Rules::Sections::metric_rule))]
impl Form<bool> for MetricForm {
    ghost rule = { λ form node. metric_rule node };

    fn read(&self, alloc: Global, tree: &Tree) -> Result<Found<bool>, OutOfMemory> {
        match members(tree) {
            [] => Ok(shape_fault(alloc, place(tree))),
            [head, metric @ ..] => {
                if asks_for_total_cost(metric) {
                    Ok(Ok(true))
                } else {
                    word_fault(alloc, head)
                }
            }
        }
    }
}

/// The actions so far and that of a section, if it is one. Refuses only for want of memory.
fn with_action(
    alloc: Global,
    so_far: Found<SchemaList>,
    tree: &Tree,
) -> Result<Found<SchemaList>, OutOfMemory>
    ensures { IfOk result (λ found. found ≡ more_found so_far
        (found_in (each action_rule (filter (is_headed (codes ":action")) (node_of tree.now ∷ []))))) }
{
    if has_head(tree, b":action") {
        add_item(so_far, ActionForm.read(alloc, tree)?)
    } else {
        Ok(so_far)
    }
}

/// The actions. Refuses only for want of memory.
pub fn read_actions(alloc: Global, sections: &[Tree]) -> Result<Found<SchemaList>, OutOfMemory>
    ensures { IfOk result (λ found. found ≡ found_in (actions_rule (nodes_in sections.now))) }
{
    let mut so_far = Ok(List::new(alloc));
    for tree in sections {
        so_far = with_action(alloc, so_far, tree)?;
    }
    Ok(so_far)
}
