//! Actions.

ghost use Rattle.std.specs.Prelude.{◌≡◌, ◌++◌, ◌∷◌, [], false, List, codes, map, take, option_map, IfOk};
ghost use Rattle.std.specs.List.{find, flat_map};
ghost use Rattle.mp_sexp.specs.Node.{Node, node_of, nodes_in};
ghost use Rattle.mp_forms.specs.Parts.{place_of, is_word, is_variable_word};
ghost use Rattle.mp_forms.specs.Limits.{most_parameters};
ghost use Rattle.mp_forms.specs.Reading.{both, besides, keyword, wanted, at_most, misshapen};
ghost use Rattle.mp_factor.specs.Found.{found_in, both_found, second_found, said_found};
ghost use Rattle.mp_factor.specs.FoundForms.{key_nodes, schema_from};
ghost use Rattle.mp_forms.specs.Rules.Words.{variable_rule};
ghost use Rattle.mp_forms.specs.Rules.Typed.{type_rule, typed_of};
ghost use Rattle.mp_forms.specs.Rules.Actions.{keys_of, in_key, agent_rule, parameters_rule, parameter_members, surplus_parameter, first_parts, keys_rule, by_keys, action_rule};
ghost use Rattle.mp_forms.specs.Rules.Conditions.{condition_rule};
ghost use Rattle.mp_forms.specs.Rules.Effects.{effect_rule, no_effect};

use crate::counted::{Room, counted};
use crate::effect_values::EffectForm;
use crate::found::{Form, Found, expect, pair, read_wanted, second, shape_fault};
use crate::keys::{Key, check_keys, keys_in};
use crate::literal::ConditionForm;
use crate::trees::{behind_first, is_keyword, is_list_tree, is_variable_tree, members, place};
use crate::typed_values::{TypeForm, VARIABLES, append, read_typed};
use crate::word::{NameForm, VariableForm};
use mp_forms::{Effect, FaultKind, LiteralList, Schema, Typed, TypedList, Word, WordList};
use mp_list::{List, OutOfMemory};
use mp_sexp::{Place, Tree};
use std::alloc::Global;

/// The most parameters of an action.
const MOST_PARAMETERS: u64 = 12;

/// The keys of an action, whose list is at a place.
#[derive(Clone, Copy)]
struct Action<'t> {
    whole: Place,
    keys: &'t [Key<'t>],
}

/// A variable and its types, as `:agent` declares them.
fn agent_of(
    alloc: Global,
    variable: Found<Word>,
    types: Found<WordList>,
) -> Result<Found<TypedList>, OutOfMemory>
    ensures { IfOk result (λ found. found
        ≡ both_found (λ word types. typed_of false word types ∷ []) variable types) }
{
    match pair(variable, types) {
        Ok((word, types)) => {
            let mut agent = List::new(alloc);
            agent.push(Typed {
                word,
                types,
                private: false,
            })?;
            Ok(Ok(agent))
        }
        Err(fault) => Ok(Err(fault)),
    }
}

/// A variable, `-` and a type. Refuses only for want of memory.
#[tactic(auto, using(crate::proofs::FoundLemmas::found_both))]
fn agent_by(
    alloc: Global,
    variable: &Tree,
    dash: &Tree,
    agent_type: &Tree,
) -> Result<Found<TypedList>, OutOfMemory>
    ensures { IfOk result (λ found. found ≡ found_in (besides (keyword (codes "-") (node_of dash.now))
        (both (λ word types. typed_of false word types ∷ [])
        (variable_rule (node_of variable.now)) (type_rule (node_of agent_type.now))))) }
{
    let sign = expect(alloc, b"-", dash);
    let word = VariableForm.read(alloc, variable)?;
    let types = TypeForm.read(alloc, agent_type)?;
    Ok(second(sign, agent_of(alloc, word, types)?))
}

/// What stands behind `:agent`. Refuses only for want of memory.
#[tactic(auto, unfolding(mp_forms::specs::Rules::Actions::agent_rule))]
fn read_agent(alloc: Global, whole: Place, value: &[Tree]) -> Result<Found<TypedList>, OutOfMemory>
    ensures { IfOk result (λ found. found ≡ found_in (agent_rule whole (nodes_in value.now))) }
{
    match value {
        [variable, dash, agent_type, ..] => agent_by(alloc, variable, dash, agent_type),
        _ => Ok(shape_fault(alloc, whole)),
    }
}

/// A parameter list.
#[derive(Clone, Copy)]
struct ParametersForm;

#[tactic(auto, unfolding(mp_forms::specs::Rules::Actions::parameters_rule))]
impl Form<TypedList> for ParametersForm {
    ghost rule = { λ form node. parameters_rule node };

    fn read(&self, alloc: Global, tree: &Tree) -> Result<Found<TypedList>, OutOfMemory> {
        if is_list_tree(tree) {
            read_typed(alloc, &VARIABLES, place(tree), members(tree))
        } else {
            Ok(shape_fault(alloc, place(tree)))
        }
    }
}

/// The first key that is this word.
fn first_named<'t>(keys: &[Key<'t>], keyword: &[u8]) -> Option<Key<'t>>
    ensures { option_map key_nodes result ≡ find (λ k. is_word keyword.now k.key) (map key_nodes keys.now) }
{
    for key in keys {
        if is_keyword(key.key, keyword) {
            return Some(*key);
        }
    }
    None
}

/// Whether at most one key is this word.
fn check_single(alloc: Global, keys: &[Key<'_>], keyword: &[u8]) -> Found<()>
    ensures { result ≡ found_in (at_most 1 (λ k. is_word keyword.now k.key) (λ k. misshapen (place_of k.key))
        (map key_nodes keys.now)) }
{
    let mut room = Room {
        found: Ok(()),
        left: 1,
    };
    for key in keys {
        let is_one = is_keyword(key.key, keyword);
        room = counted(alloc, room, is_one, place(key.key), FaultKind::Shape);
    }
    room.found
}

/// What the value of this key says, by the form of the one member that it has; where the key is missing, this. Refuses
/// only for want of memory.
fn read_key<T: Drop, F: Form<T>>(
    alloc: Global,
    form: &F,
    action: Action<'_>,
    keyword: &[u8],
    missing: T,
) -> Result<Found<T>, OutOfMemory>
    ensures { IfOk result (λ found. found ≡ found_in (in_key keyword.now (wanted (F.rule form.now) action.entry.whole) missing
        (map key_nodes action.entry.keys.now))) }
{
    let single = check_single(alloc, action.keys, keyword);
    match first_named(action.keys, keyword) {
        Some(key) => Ok(second(single, read_wanted(alloc, form, action.whole, key.value)?)),
        None => Ok(second(single, Ok(missing))),
    }
}

/// The agent of an action; without one, no parameter. Refuses only for want of memory.
fn read_agent_key(alloc: Global, action: Action<'_>) -> Result<Found<TypedList>, OutOfMemory>
    ensures { IfOk result (λ found. found ≡ found_in (in_key (codes ":agent") (agent_rule action.entry.whole) []
        (map key_nodes action.entry.keys.now))) }
{
    let single = check_single(alloc, action.keys, b":agent");
    match first_named(action.keys, b":agent") {
        Some(key) => Ok(second(single, read_agent(alloc, action.whole, key.value)?)),
        None => Ok(second(single, Ok(List::new(alloc)))),
    }
}

/// What an action says, part by part, as far as its parameters.
type ReadParameters = ((Word, TypedList), TypedList);

/// What an action says, part by part.
type Parts = ((ReadParameters, LiteralList), Effect);

/// The action of these parts. Refuses only for want of memory.
fn schema_with(parts: Parts) -> Result<Schema, OutOfMemory>
    ensures { IfOk result (λ schema. schema
        ≡ schema_from parts) }
{
    let ((((word, mut params), others), pre), effect) = parts;
    append(&mut params, others)?;
    let Effect {
        add,
        del,
        increases,
    } = effect;
    Ok(Schema {
        word,
        params,
        pre,
        add,
        del,
        increases,
    })
}

/// The action of the parts that are found. Refuses only for want of memory.
fn schema_found(parts: Found<Parts>) -> Result<Found<Schema>, OutOfMemory>
    ensures { IfOk result (λ found. found ≡ said_found schema_from parts) }
{
    match parts {
        Ok(parts) => Ok(Ok(schema_with(parts)?)),
        Err(fault) => Ok(Err(fault)),
    }
}

/// What an action does without an effect.
fn nothing(alloc: Global) -> Effect
    ensures { result ≡ no_effect }
{
    Effect {
        add: List::new(alloc),
        del: List::new(alloc),
        increases: List::new(alloc),
    }
}

/// What an action of this name says, part by part, as far as its parameters. Refuses only for want of memory.
fn read_parameters(
    alloc: Global,
    action: Action<'_>,
    name: Found<Word>,
) -> Result<Found<ReadParameters>, OutOfMemory>
    ensures { IfOk result (λ found. found ≡ both_found (λ a b. (a, b)) (both_found (λ a b. (a, b)) name
        (found_in (in_key (codes ":agent") (agent_rule action.entry.whole) [] (map key_nodes action.entry.keys.now))))
        (found_in (in_key (codes ":parameters") (wanted parameters_rule action.entry.whole) [] (map key_nodes action.entry.keys.now)))) }
{
    let agent = pair(name, read_agent_key(alloc, action)?);
    let none = List::new(alloc);
    Ok(pair(
        agent,
        read_key(alloc, &ParametersForm, action, b":parameters", none)?,
    ))
}

/// The same with its precondition, where it is known as far as its parameters. Refuses only for want of memory.
fn read_precondition(
    alloc: Global,
    action: Action<'_>,
    known: Found<ReadParameters>,
) -> Result<Found<(ReadParameters, LiteralList)>, OutOfMemory>
    ensures { IfOk result (λ found. found ≡ both_found (λ a b. (a, b)) known
        (found_in (in_key (codes ":precondition") (wanted condition_rule action.entry.whole) [] (map key_nodes action.entry.keys.now)))) }
{
    let none = List::new(alloc);
    let pre = read_key(alloc, &ConditionForm, action, b":precondition", none)?;
    Ok(pair(known, pre))
}

/// The keys of an action read, part by part. Refuses only for want of memory.
fn read_parts(
    alloc: Global,
    action: Action<'_>,
    name: Found<Word>,
) -> Result<Found<Parts>, OutOfMemory>
    ensures { IfOk result (λ found. found ≡ both_found (λ a b. (a, b)) (both_found (λ a b. (a, b)) (both_found (λ a b. (a, b)) (both_found (λ a b. (a, b)) name
        (found_in (in_key (codes ":agent") (agent_rule action.entry.whole) [] (map key_nodes action.entry.keys.now))))
        (found_in (in_key (codes ":parameters") (wanted parameters_rule action.entry.whole) [] (map key_nodes action.entry.keys.now))))
        (found_in (in_key (codes ":precondition") (wanted condition_rule action.entry.whole) [] (map key_nodes action.entry.keys.now))))
        (found_in (in_key (codes ":effect") (wanted effect_rule action.entry.whole) no_effect (map key_nodes action.entry.keys.now)))) }
{
    let params = read_parameters(alloc, action, name)?;
    let pre = read_precondition(alloc, action, params)?;
    let effect = read_key(alloc, &EffectForm, action, b":effect", nothing(alloc))?;
    Ok(pair(pre, effect))
}

/// What an action of this name says by its keys. Refuses only for want of memory.
fn read_keys(alloc: Global, action: Action<'_>, name: &Tree) -> Result<Found<Schema>, OutOfMemory>
    ensures { IfOk result (λ found. found ≡ found_in (keys_rule action.entry.whole (node_of name.now)
        (map key_nodes action.entry.keys.now))) }
{
    let word = NameForm.read(alloc, name)?;
    let parts = read_parts(alloc, action, word)?;
    let schema = schema_found(parts)?;
    Ok(schema)
}

/// The members of the list that comes first.
fn first_members(trees: &[Tree]) -> &[Tree]
    ensures { nodes_in result.now ≡ first_parts (nodes_in trees.now) }
{
    match trees {
        [] => &[],
        [tree, ..] => members(tree),
    }
}

/// The first of some trees alone.
fn first_alone(trees: &[Tree]) -> &[Tree]
    ensures { nodes_in result.now ≡ take 1 (nodes_in trees.now) }
{
    &trees[..trees.len().min(1)]
}

/// Where a key names parameters.
#[tactic(auto, unfolding(mp_forms::specs::Rules::Actions::parameter_members))]
fn naming_members<'t>(key: Key<'t>) -> &'t [Tree]
    ensures { nodes_in result.now ≡ parameter_members (key_nodes key.entry) }
{
    if is_keyword(key.key, b":agent") {
        first_alone(key.value)
    } else if is_keyword(key.key, b":parameters") {
        first_members(key.value)
    } else {
        &[]
    }
}

/// The room behind the parameters among these trees.
fn count_parameters(alloc: Global, room: Room, trees: &[Tree]) -> Room
    ensures { (others : List Node)
        → second_found result.found (found_in (at_most result.left is_variable_word surplus_parameter others))
        ≡ second_found room.found (found_in (at_most room.left is_variable_word surplus_parameter (nodes_in trees.now ++ others))) }
{
    let mut room = room;
    for tree in trees {
        room = counted(
            alloc,
            room,
            is_variable_tree(tree),
            place(tree),
            FaultKind::Parameters,
        );
    }
    room
}

/// Whether an action has at most twelve parameters.
fn check_parameters(alloc: Global, keys: &[Key<'_>]) -> Found<()>
    ensures { result ≡ found_in (at_most most_parameters is_variable_word surplus_parameter
        (flat_map parameter_members (map key_nodes keys.now))) }
{
    let mut room = Room {
        found: Ok(()),
        left: MOST_PARAMETERS,
    };
    for key in keys {
        room = count_parameters(alloc, room, naming_members(*key));
    }
    room.found
}

/// What an action of this name says, whose keys these are. Refuses only for want of memory.
#[tactic(auto, using(crate::proofs::FoundLemmas::found_both))]
fn read_by_keys(
    alloc: Global,
    action: Action<'_>,
    name: &Tree,
) -> Result<Found<Schema>, OutOfMemory>
    ensures { IfOk result (λ found. found
        ≡ found_in (by_keys action.entry.whole (node_of name.now) (map key_nodes action.entry.keys.now))) }
{
    let right = check_keys(alloc, action.whole, action.keys)?;
    let few = check_parameters(alloc, action.keys);
    Ok(second(right, second(few, read_keys(alloc, action, name)?)))
}

/// What an action says, with this name and these members behind it. Refuses only for want of memory.
fn read_members(
    alloc: Global,
    whole: Place,
    name: &Tree,
    trees: &[Tree],
) -> Result<Found<Schema>, OutOfMemory>
    ensures { IfOk result (λ found. found ≡ found_in (by_keys whole (node_of name.now) (keys_of (nodes_in trees.now)))) }
{
    let keys = keys_in(alloc, trees)?;
    let action = Action {
        whole,
        keys: keys.as_slice(),
    };
    let schema = read_by_keys(alloc, action, name)?;
    Ok(schema)
}

/// An action.
#[derive(Clone, Copy)]
pub struct ActionForm;

#[tactic(auto, unfolding(mp_forms::specs::Rules::Actions::action_rule))]
impl Form<Schema> for ActionForm {
    ghost rule = { λ form node. action_rule node };

    fn read(&self, alloc: Global, tree: &Tree) -> Result<Found<Schema>, OutOfMemory> {
        match behind_first(members(tree)) {
            [] => Ok(shape_fault(alloc, place(tree))),
            [name, keys @ ..] => read_members(alloc, place(tree), name, keys),
        }
    }
}
