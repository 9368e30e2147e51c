//! What a list lacks.

use mp_positions::{Position, Role, head, members_of, word_of};
use mp_sexp::Tree;

/// Whether the last member of a list is the word `-`.
fn ends_with_dash(list: &Tree) -> bool {
    match members_of(list) {
        [.., last] => word_of(last) == "-",
        [] => false,
    }
}

/// What an action lacks.
fn of_action(list: &Tree) -> &'static str {
    if members_of(list).len() < 2 {
        "the name of the action"
    } else {
        "the value of its last key"
    }
}

/// What a section lacks.
fn of_section(list: &Tree) -> &'static str {
    match head(list) {
        ":domain" => "the name of the domain",
        ":goal" => "a condition, which may be `()`",
        ":action" => of_action(list),
        _ => "",
    }
}

/// What a condition, effect or fact lacks.
fn of_condition(list: &Tree) -> &'static str {
    match head(list) {
        "not" => "the atom behind `not`",
        "increase" => "`(total-cost)` and a number or function behind it",
        "=" => "a function in brackets and its number",
        _ => "",
    }
}

/// Whether something stands as a list that has a typed list in it.
fn has_types(role: Role) -> bool {
    match role {
        Role::Section(_)
        | Role::Object
        | Role::Signature(_)
        | Role::PrivateSignature(_)
        | Role::Parameters => true,
        _ => false,
    }
}

/// What a list lacks in which something is missing; nothing for a list that stands in a wrong place.
pub(crate) fn lacking(position: &Position<'_>) -> &'static str {
    let list = position.tree;
    if has_types(position.role) && ends_with_dash(list) {
        return "a type behind the last `-`";
    }
    match position.role {
        Role::Title(_) if members_of(list).len() == 1 => "a name behind its first word",
        Role::Section(_) => of_section(list),
        Role::Condition | Role::Effect | Role::Fact => of_condition(list),
        _ => "",
    }
}
