//! As what the members of a list stand.

use crate::conditions::{in_condition, in_effect, in_fact, in_function, in_plain_atom, in_target};
use crate::lists::{
    in_file, in_private_objects, in_signature, in_signature_or_block, in_signatures, in_title,
    in_type, in_typed,
};
use crate::roles::{Role, Signed};
use crate::trees::{head, members_of, word_of};
use mp_forms::File;
use mp_sexp::Tree;

/// How many members the value of a key of an action has.
fn value_length(key: &str) -> usize {
    match key {
        ":agent" => 3,
        ":parameters" | ":precondition" | ":effect" => 1,
        _ => 0,
    }
}

/// As what a member of a key's value stands, where so many of them are left with it.
fn value_role(key: &str, left: usize) -> Role {
    match key {
        ":parameters" => Role::Parameters,
        ":precondition" => Role::Condition,
        ":effect" => Role::Effect,
        _ => match left {
            3 => Role::Variable,
            2 => Role::AgentDash,
            _ => Role::Type,
        },
    }
}

/// As what a member of an action stands, behind its name.
fn in_keys(list: &Tree, at: usize) -> Role {
    let mut key = "";
    let mut left = 0;
    for (place, member) in members_of(list).iter().enumerate() {
        if place >= 2 {
            if place >= at {
                break;
            }
            if left > 0 {
                left -= 1;
            } else {
                key = word_of(member);
                left = value_length(key);
            }
        }
    }
    if left == 0 {
        return Role::Key;
    }
    value_role(key, left)
}

/// As what a member of an action stands.
fn in_action(list: &Tree, at: usize) -> Role {
    match at {
        1 => Role::ActionName,
        _ => in_keys(list, at),
    }
}

/// As what a member that stands alone stands.
fn alone(role: Role, at: usize) -> Role {
    match at {
        1 => role,
        _ => Role::Extra,
    }
}

/// As what a member of a section stands, behind its first word.
fn in_section(list: &Tree, at: usize) -> Role {
    let function = Signed::Function;
    let predicate = Signed::Predicate;
    match head(list) {
        ":requirements" => Role::Requirement,
        ":types" => in_typed(Role::TypeName, list, at),
        ":constants" | ":objects" => in_typed(Role::Object, list, at),
        ":predicates" => in_signatures(predicate, Role::Signature(predicate), list, at),
        ":functions" => in_signatures(function, Role::Signature(function), list, at),
        ":action" => in_action(list, at),
        ":domain" => alone(Role::Name, at),
        ":init" => Role::Fact,
        ":goal" => alone(Role::Condition, at),
        ":metric" => Role::Metric,
        _ => Role::Extra,
    }
}

/// As what a member of a section stands.
fn in_any_section(file: File, list: &Tree, at: usize) -> Role {
    match at {
        0 => Role::SectionWord(file),
        _ => in_section(list, at),
    }
}

/// As what the member of a list at a place stands, where the list stands as this.
pub(crate) fn role_inside(role: Role, list: &Tree, at: usize) -> Role {
    match role {
        Role::Whole(file) => in_file(file, at),
        Role::Title(file) => in_title(file, at),
        Role::Section(file) => in_any_section(file, list, at),
        Role::Object => in_private_objects(list, at),
        Role::Signature(signed) => in_signature_or_block(signed, list, at),
        Role::PrivateSignature(signed) => in_signature(signed, list, at),
        Role::Type => in_type(at),
        Role::Parameters => in_typed(Role::Variable, list, at),
        Role::Condition => in_condition(list, at),
        Role::Effect => in_effect(list, at),
        Role::Atom => in_plain_atom(at),
        Role::Fact => in_fact(list, at),
        Role::Amount | Role::Valued => in_function(at),
        Role::Target => in_target(at),
        _ => Role::Extra,
    }
}
