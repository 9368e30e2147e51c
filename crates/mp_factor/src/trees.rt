//! Words and lists of a tree.

ghost use Rattle.std.specs.Prelude.{◌≡◌, ◌≤◌, take, drop, length};
ghost use Rattle.mp_sexp.specs.Node.{node_of, nodes_in};
ghost use Rattle.mp_forms.specs.Parts.{is_word, place_of, word_of, parts, is_list, is_headed, is_name_word, is_variable_word, is_fixed_word, rest_of};

use crate::words;
use mp_sexp::{Place, Tree};

/// Where a tree stands.
pub fn place(tree: &Tree) -> Place
    ensures { result ≡ place_of (node_of tree.now) }
{
    match tree {
        Tree::Word(_, place) => *place,
        Tree::List(_, place) => *place,
    }
}

/// The bytes of a word; those of a list are none.
pub fn word(tree: &Tree) -> &[u8]
    ensures { result.now ≡ word_of (node_of tree.now) }
{
    match tree {
        Tree::Word(name, _) => name.as_slice(),
        Tree::List(_, _) => b"",
    }
}

/// The members of a list; those of a word are none.
pub fn members(tree: &Tree) -> &[Tree]
    ensures { nodes_in result.now ≡ parts (node_of tree.now) }
{
    match tree {
        Tree::Word(_, _) => &[],
        Tree::List(list, _) => list.items.as_slice(),
    }
}

/// The members behind the first one.
pub fn behind_first(trees: &[Tree]) -> &[Tree]
    ensures { nodes_in result.now ≡ rest_of (nodes_in trees.now) }
{
    match trees {
        [] => &[],
        [_, rest @ ..] => rest,
    }
}

/// Whether a tree is a list.
pub fn is_list_tree(tree: &Tree) -> bool
    ensures { result ≡ is_list (node_of tree.now) }
{
    match tree {
        Tree::Word(_, _) => false,
        Tree::List(_, _) => true,
    }
}

/// Whether a tree is this word.
pub fn is_keyword(tree: &Tree, keyword: &[u8]) -> bool
    ensures { result ≡ is_word keyword.now (node_of tree.now) }
{
    match tree {
        Tree::Word(name, _) => words::is_same(name.as_slice(), keyword),
        Tree::List(_, _) => false,
    }
}

/// Whether a tree is a list that begins with this word.
pub fn has_head(tree: &Tree, keyword: &[u8]) -> bool
    ensures { result ≡ is_headed keyword.now (node_of tree.now) }
{
    match members(tree) {
        [] => false,
        [head, ..] => is_keyword(head, keyword),
    }
}

/// Whether a tree is a name.
pub fn is_name_tree(tree: &Tree) -> bool
    ensures { result ≡ is_name_word (node_of tree.now) }
{
    words::is_spelled_as_name(word(tree))
}

/// Whether a tree is a variable.
pub fn is_variable_tree(tree: &Tree) -> bool
    ensures { result ≡ is_variable_word (node_of tree.now) }
{
    words::is_spelled_as_variable(word(tree))
}

/// Whether a tree is a word with a meaning of its own.
pub fn is_fixed_tree(tree: &Tree) -> bool
    ensures { result ≡ is_fixed_word (node_of tree.now) }
{
    words::is_kept_word(word(tree))
}

/// The first so many of some trees and the others, or all where there are fewer.
pub fn split(trees: &[Tree], count: usize) -> (&[Tree], &[Tree])
    ensures front { nodes_in result.0.now ≡ take count (nodes_in trees.now) }
    ensures back { nodes_in result.1.now ≡ drop count (nodes_in trees.now) }
    ensures fewer { length result.1.now ≤ length trees.now }
{
    trees.split_at(count.min(trees.len()))
}
