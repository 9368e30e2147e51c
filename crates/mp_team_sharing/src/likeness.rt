//! Whether two factors declare a predicate alike.

use mp_forms::{Typed, Word};

/// Whether the type that these words say is `object`.
fn is_object(types: &[Word]) -> bool {
    match types {
        [] => true,
        [word] => word.name.is(b"object"),
        _ => false,
    }
}

/// Whether words are the same.
fn are_same_words(some: &[Word], others: &[Word]) -> bool {
    match some {
        [] => others.is_empty(),
        [word, rest @ ..] => match others {
            [] => false,
            [other, behind @ ..] => word.name == other.name && are_same_words(rest, behind),
        },
    }
}

/// Whether two types are written alike.
fn are_same_types(some: &[Word], others: &[Word]) -> bool {
    if is_object(some) {
        return is_object(others);
    }
    are_same_words(some, others)
}

/// The place, from 0, of the first argument whose types differ.
pub fn first_unlike(some: &[Typed], others: &[Typed]) -> Option<usize> {
    for (at, param) in some.iter().enumerate() {
        if let Some(other) = others.get(at) {
            if !are_same_types(param.types.as_slice(), other.types.as_slice()) {
                return Some(at);
            }
        }
    }
    None
}
