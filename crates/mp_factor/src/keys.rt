//! The keys of an action, each with its value.

ghost use Rattle.std.specs.Prelude.{◌≡◌, ◌<◌, ◌∷◌, [], ⊤, length, map, MatchOption, IfOk};
ghost use Rattle.mp_sexp.specs.Node.{node_of, nodes_in};
ghost use Rattle.mp_factor.specs.Found.{found_in};
ghost use Rattle.mp_forms.specs.Reading.{all_right};
ghost use Rattle.mp_factor.specs.FoundForms.{key_nodes};
ghost use Rattle.mp_forms.specs.Rules.Actions.{is_key, value_length, keys_of, is_cut_short, key_rule};

use crate::found::{Found, second, shape_fault, word_fault};
use crate::trees::{is_keyword, is_list_tree, place, split};
use mp_list::OutOfMemory;
use mp_sexp::{Place, Tree};
use std::alloc::Global;

/// What stands in the place of a key, and its value.
#[derive(Clone, Copy)]
pub struct Key<'t> {
    pub key: &'t Tree,
    pub value: &'t [Tree],
}

/// A key, and what stands behind its value.
#[derive(Clone, Copy)]
struct FirstKey<'t> {
    key: Key<'t>,
    behind: &'t [Tree],
}

/// Whether a tree is a word that is a key.
#[tactic(auto, unfolding(mp_forms::specs::Rules::Actions::is_key))]
fn names_key(tree: &Tree) -> bool
    ensures { result ≡ is_key (node_of tree.now) }
{
    is_keyword(tree, b":agent")
        || is_keyword(tree, b":parameters")
        || is_keyword(tree, b":precondition")
        || is_keyword(tree, b":effect")
}

/// How many members the value of a key has.
#[tactic(auto, unfolding(mp_forms::specs::Rules::Actions::value_length))]
fn value_len(tree: &Tree) -> usize
    ensures { result ≡ value_length (node_of tree.now) }
{
    if is_keyword(tree, b":agent") {
        3
    } else if names_key(tree) {
        1
    } else {
        0
    }
}

/// The first key of these members of an action, where there is one.
fn first_key(trees: &[Tree]) -> Option<FirstKey<'_>>
    ensures key { MatchOption result (nodes_in trees.now ≡ [])
        (λ k. keys_of (nodes_in trees.now) ≡ key_nodes k.key ∷ keys_of (nodes_in k.behind.now)) }
    ensures fewer { MatchOption result ⊤ (λ k. length k.behind.now < length trees.now) }
{
    match trees {
        [] => None,
        [key, others @ ..] => {
            let (value, behind) = split(others, value_len(key));
            Some(FirstKey {
                key: Key { key, value },
                behind,
            })
        }
    }
}

/// The keys of an action, whose members behind its name these are. Refuses only for want of memory.
pub fn keys_in(alloc: Global, trees: &[Tree]) -> Result<Vec<Key<'_>>, OutOfMemory>
    ensures { IfOk result (λ keys. map key_nodes keys.items ≡ keys_of (nodes_in trees.now)) }
{
    let mut keys = Vec::new(alloc);
    let mut rest = trees;
    while let Some(first) = first_key(rest) {
        keys.push(first.key)?;
        rest = first.behind;
    }
    Ok(keys)
}

/// Whether a value lacks some of its members.
fn lacks_members(key: Key<'_>) -> bool
    ensures { result ≡ is_cut_short (key_nodes key.entry) }
{
    key.value.len() < value_len(key.key)
}

/// Whether a word that is a key stands in its place and has its value, in the action at this place. Refuses only for
/// want of memory.
#[tactic(auto, unfolding(mp_forms::specs::Rules::Actions::key_rule))]
fn check_key(alloc: Global, whole: Place, key: Key<'_>) -> Result<Found<()>, OutOfMemory>
    ensures { IfOk result (λ found. found ≡ found_in (key_rule whole (key_nodes key.entry))) }
{
    if is_list_tree(key.key) {
        Ok(shape_fault(alloc, place(key.key)))
    } else if !names_key(key.key) {
        word_fault(alloc, key.key)
    } else if lacks_members(key) {
        Ok(shape_fault(alloc, whole))
    } else {
        Ok(Ok(()))
    }
}

/// Whether all keys of the action at this place are keys with their values. Refuses only for want of memory.
pub fn check_keys(alloc: Global, whole: Place, keys: &[Key<'_>]) -> Result<Found<()>, OutOfMemory>
    ensures { IfOk result (λ found. found ≡ found_in (all_right (key_rule whole) (map key_nodes keys.now))) }
{
    let mut so_far = Ok(());
    for key in keys {
        so_far = second(so_far, check_key(alloc, whole, *key)?);
    }
    Ok(so_far)
}
