//! How else to write what is not supported.

use mp_positions::{Position, Role, head};

/// Whether something stands in a problem's goal.
fn is_in_goal(position: &Position<'_>) -> bool {
    head(position.section) == ":goal"
}

/// Other ways to write a choice between conditions.
fn of_choice(position: &Position<'_>) -> &'static str {
    if is_in_goal(position) {
        "ask for a fact of its own, and give an action for each of the cases that adds it"
    } else {
        "write an action for each of the cases"
    }
}

/// Other ways to write that there is an object.
fn of_exists(position: &Position<'_>) -> &'static str {
    if is_in_goal(position) {
        "ask for a fact of its own, and give an action that adds it, with the object as a parameter"
    } else {
        "make the variable a parameter of the action"
    }
}

/// Other ways to write `not` where it is not supported.
fn of_not(position: &Position<'_>) -> &'static str {
    match position.around_role {
        Role::Fact => "leave the fact out: what `:init` does not list is false",
        _ => "leave both `not` out: they cancel each other",
    }
}

/// Other ways to write `and` where it is not supported.
fn of_and(position: &Position<'_>) -> &'static str {
    match position.around_role {
        Role::Fact => "list the facts one after another, without `and`",
        _ => "write an action for each part, with that part alone under `not`",
    }
}

/// Other ways to write an increase where it is not supported.
fn of_increase(position: &Position<'_>) -> &'static str {
    match position.around_role {
        Role::Effect => {
            "only the total cost can be increased: `(increase (total-cost) NUMBER)` or `(increase (total-cost) (NAME TERM ..))`"
        }
        _ => "an increase stands in effects alone",
    }
}

/// Other ways to write a comparison.
fn of_equals(position: &Position<'_>) -> &'static str {
    match position.around_role {
        Role::Condition => {
            "declare a predicate, as `(same ?x ?y)`, and list in `:init` the pairs for which it is true"
        }
        _ => "values of functions stand in `:init` alone",
    }
}

/// Other ways to write a word that changes a number.
fn of_assignment(word: &str) -> &'static str {
    match word {
        "assign" | "decrease" | "scale-up" | "scale-down" => {
            "the only number that actions change is the total cost, by `(increase (total-cost) ..)`; write levels as objects and facts about them"
        }
        _ => "the format uses this word itself: give the predicate another name",
    }
}

/// How else to write what a word begins that is not supported at this place.
pub(crate) fn way(position: &Position<'_>, word: &str) -> &'static str {
    match word {
        "or" | "imply" => of_choice(position),
        "exists" => of_exists(position),
        "forall" => "write its part once for each object, all joined by `(and ..)`",
        "when" => {
            "write two actions: one whose precondition has the condition, and one whose precondition has its opposite"
        }
        "not" => of_not(position),
        "and" => of_and(position),
        "=" => of_equals(position),
        "increase" => of_increase(position),
        other => of_assignment(other),
    }
}
