//! Numbers that are no costs, and increases that are too many.

use mp_bracket_hints::push_place;
use mp_positions::{
    Position, Role, head, is_behind, is_list, members_of, place_of, word_at, word_of,
};
use mp_sexp::Tree;
use std::alloc::AllocError;

/// The greatest cost.
const GREATEST: u64 = 1_000_000;

/// Whether a number has decimals other than zeros.
fn has_decimals(number: &str) -> bool {
    match number.split_once('.') {
        Some((_, decimals)) => decimals.as_bytes().iter().any(|digit| *digit != b'0'),
        None => false,
    }
}

/// Whether the digits of a number before its point are more than the greatest cost.
fn is_too_great(number: &str) -> bool {
    let mut value: u64 = 0;
    for digit in number.as_bytes() {
        if !digit.is_ascii_digit() {
            break;
        }
        value = value
            .saturating_mul(10)
            .saturating_add(u64::from(digit.saturating_sub(b'0')));
    }
    value > GREATEST
}

/// Whether two lists have the same words.
fn has_same_words(list: &Tree, other: &Tree) -> bool {
    let trees = members_of(list);
    if trees.len() != members_of(other).len() {
        return false;
    }
    for (at, tree) in trees.iter().enumerate() {
        if word_of(tree) != word_at(other, at) {
            return false;
        }
    }
    true
}

/// Whether a tree gives a value to the function that another one gives a value to.
fn gives_same(tree: &Tree, value: &Tree) -> bool {
    match (members_of(tree), members_of(value)) {
        ([equals, function, ..], [_, other, ..]) => {
            word_of(equals) == "=" && has_same_words(function, other)
        }
        _ => false,
    }
}

/// The first value that a section gives to the function of this one, which stands behind it.
fn first_value<'t>(section: &'t Tree, value: &Tree) -> Option<&'t Tree> {
    for tree in members_of(section) {
        if gives_same(tree, value) {
            return Some(tree);
        }
    }
    None
}

/// Tells of a second value of a function.
fn tell_second(out: &mut String, position: &Position<'_>) -> Result<(), AllocError> {
    match first_value(position.section, position.around) {
        Some(first) if is_behind(place_of(position.tree), place_of(first)) => {
            let number = word_at(first, 2);
            write!(out, "the function has another value, {number}, at ")?;
            push_place(out, place_of(first))?;
            out.push_str("\nwanted: one value for each function and its objects\n")
        }
        _ => out.push_str("wanted: a number from 0 to 1000000\n"),
    }
}

/// Tells of a number that is no cost.
fn tell_number(out: &mut String, position: &Position<'_>) -> Result<(), AllocError> {
    let number = word_of(position.tree);
    if has_decimals(number) {
        return out.push_str(
            "decimals other than zeros are not supported\nwanted: a number from 0 to 1000000\ninstead: multiply all costs of the team by one number, as 10 or 100\n",
        );
    }
    if is_too_great(number) {
        return out.push_str(
            "the number is greater than 1000000\nwanted: a number from 0 to 1000000\ninstead: divide all costs of the team by one number\n",
        );
    }
    tell_second(out, position)
}

/// Tells of a number that is no cost, or of an increase that is the seventeenth.
pub(crate) fn tell_cost(out: &mut String, position: &Position<'_>) -> Result<(), AllocError> {
    if is_list(position.tree) {
        return out.push_str(
            "this is the seventeenth increase of the action\nwanted: at most 16 increases\ninstead: write the sum of several numbers as one\n",
        );
    }
    tell_number(out, position)
}
