//! The word or list that stands at a place of a file.

use crate::members::role_inside;
use crate::roles::Role;
use crate::trees::{is_behind, members_of, place_of};
use mp_forms::File;
use mp_sexp::{Place, Tree};

/// The most open brackets of a file.
const DEEPEST: usize = 100;

/// A word or list of a file, and where it stands.
#[derive(Clone, Copy)]
pub struct Position<'t> {
    pub tree: &'t Tree,
    /// As what it stands.
    pub role: Role,
    /// The list in which it stands; that of the whole file stands in itself.
    pub around: &'t Tree,
    /// As what that list stands.
    pub around_role: Role,
    /// The section in which it stands, or the whole file.
    pub section: &'t Tree,
}

/// The last of some trees that does not stand behind a place, and its number, counted from 0.
fn last_until<'t>(trees: &'t [Tree], place: Place) -> Option<(usize, &'t Tree)> {
    let mut found = None;
    for (at, tree) in trees.iter().enumerate() {
        if is_behind(place_of(tree), place) {
            return found;
        }
        found = Some((at, tree));
    }
    found
}

/// The section of a tree that stands as this: itself, or the one around it.
fn section_with<'t>(role: Role, tree: &'t Tree, around: &'t Tree) -> &'t Tree {
    match role {
        Role::Section(_) => tree,
        _ => around,
    }
}

/// The member of a list that holds a place.
fn inside<'t>(position: Position<'t>, place: Place) -> Option<Position<'t>> {
    let list = position.tree;
    match last_until(members_of(list), place) {
        Some((at, tree)) => {
            let role = role_inside(position.role, list, at);
            Some(Position {
                tree,
                role,
                around: list,
                around_role: position.role,
                section: section_with(role, tree, position.section),
            })
        }
        None => None,
    }
}

/// The innermost word or list of a file's tree that does not stand behind a place: the one that stands there, where
/// there is one.
pub fn position_at<'t>(tree: &'t Tree, file: File, place: Place) -> Position<'t> {
    let mut position = Position {
        tree,
        role: Role::Whole(file),
        around: tree,
        around_role: Role::Whole(file),
        section: tree,
    };
    for _ in 0..DEEPEST {
        match inside(position, place) {
            Some(next) => position = next,
            None => return position,
        }
    }
    position
}
