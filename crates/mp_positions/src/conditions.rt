//! The members of conditions, effects, facts and functions.

use crate::roles::Role;
use crate::trees::head;
use mp_sexp::Tree;

/// As what a member of an atom stands.
fn in_atom(at: usize) -> Role {
    match at {
        0 => Role::Predicate,
        _ => Role::Term,
    }
}

/// As what a member of a list that begins with `not` stands.
fn in_negated(at: usize) -> Role {
    match at {
        0 => Role::Predicate,
        1 => Role::Atom,
        _ => Role::Extra,
    }
}

/// As what a member of an increase stands.
fn in_increase(at: usize) -> Role {
    match at {
        0 => Role::Predicate,
        1 => Role::Target,
        2 => Role::Amount,
        _ => Role::Extra,
    }
}

/// As what a member of a value at the start stands.
fn in_value(at: usize) -> Role {
    match at {
        0 => Role::Predicate,
        1 => Role::Valued,
        2 => Role::Cost,
        _ => Role::Extra,
    }
}

/// As what a member of a condition stands.
pub(crate) fn in_condition(list: &Tree, at: usize) -> Role {
    match head(list) {
        "and" if at > 0 => Role::Condition,
        "not" => in_negated(at),
        _ => in_atom(at),
    }
}

/// As what a member of an effect stands.
pub(crate) fn in_effect(list: &Tree, at: usize) -> Role {
    match head(list) {
        "and" if at > 0 => Role::Effect,
        "not" => in_negated(at),
        "increase" => in_increase(at),
        _ => in_atom(at),
    }
}

/// As what a member of an atom under `not` stands.
pub(crate) fn in_plain_atom(at: usize) -> Role {
    in_atom(at)
}

/// As what a member of a fact or value at the start stands.
pub(crate) fn in_fact(list: &Tree, at: usize) -> Role {
    match head(list) {
        "=" => in_value(at),
        _ => in_atom(at),
    }
}

/// As what a member of a function stands.
pub(crate) fn in_function(at: usize) -> Role {
    match at {
        0 => Role::Function,
        _ => Role::Term,
    }
}

/// As what a member of `(total-cost)` stands.
pub(crate) fn in_target(at: usize) -> Role {
    match at {
        0 => Role::TotalCost,
        _ => Role::Extra,
    }
}
