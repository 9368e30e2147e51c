//! The members of titles, typed lists and lists of signatures.

use crate::roles::{Role, Signed};
use crate::trees::{head, word_at};
use mp_forms::File;
use mp_sexp::Tree;

/// As what a member of the file's list stands.
pub(crate) fn in_file(file: File, at: usize) -> Role {
    match at {
        0 => Role::Define,
        1 => Role::Title(file),
        _ => Role::Section(file),
    }
}

/// As what a member of a file's title stands.
pub(crate) fn in_title(file: File, at: usize) -> Role {
    match at {
        0 => Role::Kind(file),
        1 => Role::Name,
        _ => Role::Extra,
    }
}

/// As what a member of a typed list stands, whose items stand as this.
pub(crate) fn in_typed(item: Role, list: &Tree, at: usize) -> Role {
    if word_at(list, at) == "-" {
        return Role::Dash;
    }
    if word_at(list, at.saturating_sub(1)) == "-" {
        return Role::Type;
    }
    item
}

/// As what a member of a type stands.
pub(crate) fn in_type(at: usize) -> Role {
    match at {
        0 => Role::Either,
        _ => Role::OneType,
    }
}

/// As what a member of a list in a list of objects stands.
pub(crate) fn in_private_objects(list: &Tree, at: usize) -> Role {
    match at {
        0 => Role::PrivateWord,
        _ => in_typed(Role::PrivateObject, list, at),
    }
}

/// As what a member of a list of signatures stands, whose items stand as this.
pub(crate) fn in_signatures(signed: Signed, item: Role, list: &Tree, at: usize) -> Role {
    match signed {
        Signed::Predicate => item,
        Signed::Function => match in_typed(item, list, at) {
            Role::Type => Role::Number,
            other => other,
        },
    }
}

/// As what a member of a signature stands.
pub(crate) fn in_signature(signed: Signed, list: &Tree, at: usize) -> Role {
    match at {
        0 => Role::Declared(signed),
        _ => in_typed(Role::Variable, list, at),
    }
}

/// As what a member of a signature or a block of private ones stands.
pub(crate) fn in_signature_or_block(signed: Signed, list: &Tree, at: usize) -> Role {
    if head(list) != ":private" {
        return in_signature(signed, list, at);
    }
    match at {
        0 => Role::PrivateWord,
        _ => in_signatures(signed, Role::PrivateSignature(signed), list, at),
    }
}
