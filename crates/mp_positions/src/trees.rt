//! Words and lists of a tree.

use mp_hints::text_of;
use mp_sexp::{Place, Tree};

/// Where a tree stands.
pub fn place_of(tree: &Tree) -> Place {
    match tree {
        Tree::Word(_, place) => *place,
        Tree::List(_, place) => *place,
    }
}

/// The text of a word; that of a list is empty.
pub fn word_of(tree: &Tree) -> &str {
    match tree {
        Tree::Word(name, _) => text_of(name.as_slice()),
        Tree::List(_, _) => "",
    }
}

/// The members of a list; those of a word are none.
pub fn members_of(tree: &Tree) -> &[Tree] {
    match tree {
        Tree::Word(_, _) => &[],
        Tree::List(list, _) => list.items.as_slice(),
    }
}

/// Whether a tree is a list.
pub fn is_list(tree: &Tree) -> bool {
    match tree {
        Tree::Word(_, _) => false,
        Tree::List(_, _) => true,
    }
}

/// The text of the member of a list at a place, counted from 0; empty where it is no word.
pub fn word_at(list: &Tree, at: usize) -> &str {
    match members_of(list).get(at) {
        Some(tree) => word_of(tree),
        None => "",
    }
}

/// The text of the first member of a list.
pub fn head(list: &Tree) -> &str {
    word_at(list, 0)
}

/// Whether a place stands behind another in a file.
pub fn is_behind(place: Place, other: Place) -> bool {
    place.line > other.line || place.line == other.line && place.column > other.column
}
