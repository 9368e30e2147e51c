//! What the format has at each place.

use mp_forms::File;
use mp_positions::{Role, Signed};

/// What stands as a file.
fn whole(file: File) -> &'static str {
    match file {
        File::Domain => "`(define (domain NAME) SECTION ..)`",
        File::Problem => "`(define (problem NAME) SECTION ..)`",
    }
}

/// What stands as a file's title.
fn title(file: File) -> &'static str {
    match file {
        File::Domain => "`(domain NAME)`",
        File::Problem => "`(problem NAME)`",
    }
}

/// What stands as the first word of a file's title.
fn kind(file: File) -> &'static str {
    match file {
        File::Domain => "the word `domain`",
        File::Problem => "the word `problem`",
    }
}

/// What stands as a section.
pub(crate) fn section(file: File) -> &'static str {
    match file {
        File::Domain => {
            "a section: `(:requirements ..)`, `(:types ..)`, `(:constants ..)`, `(:predicates ..)`, `(:functions ..)` or `(:action NAME ..)`"
        }
        File::Problem => {
            "a section: `(:requirements ..)`, `(:domain NAME)`, `(:objects ..)`, `(:init ..)`, `(:goal CONDITION)` or `(:metric minimize (total-cost))`"
        }
    }
}

/// What stands as a signature.
fn signature(signed: Signed) -> &'static str {
    match signed {
        Signed::Predicate =>
            "a predicate in brackets, `(NAME ?x - TYPE ..)`, or a block `(:private ..)` of them",
        Signed::Function => {
            "a function in brackets, `(NAME ?x - TYPE ..)`, or a block `(:private ..)` of them; behind a function `- number` may stand"
        }
    }
}

/// What stands as a signature in a private block.
fn private_signature(signed: Signed) -> &'static str {
    match signed {
        Signed::Predicate => "a predicate in brackets, `(NAME ?x - TYPE ..)`",
        Signed::Function => "a function in brackets, `(NAME ?x - TYPE ..)`",
    }
}

/// What stands as a declared name.
fn declared(signed: Signed) -> &'static str {
    match signed {
        Signed::Predicate => {
            "the name of a predicate: a letter, then letters, digits, `-` and `_`, and no word that the format uses itself"
        }
        Signed::Function => {
            "the name of a function: a letter, then letters, digits, `-` and `_`, and no word that the format uses itself but `total-cost`"
        }
    }
}

/// What stands in conditions, effects and facts.
fn inside(role: Role) -> &'static str {
    match role {
        Role::Condition =>
            "a condition: `(NAME TERM ..)`, `(not (NAME TERM ..))`, `(and CONDITION ..)` or `()`",
        Role::Effect => {
            "an effect: `(NAME TERM ..)`, `(not (NAME TERM ..))`, `(increase (total-cost) NUMBER)`, `(and EFFECT ..)` or `()`"
        }
        Role::Atom => "an atom: `(NAME TERM ..)`",
        Role::Fact => "a fact, `(NAME NAME ..)`, or a value, `(= (NAME NAME ..) NUMBER)`",
        Role::Predicate => "the name of a predicate",
        Role::Term => "a name, or in an action a variable: `?` and a name",
        Role::Target => "`(total-cost)`, in brackets",
        Role::Amount => "a number of digits, or a function in brackets, `(NAME TERM ..)`",
        Role::Valued => "a function in brackets, `(NAME NAME ..)`",
        Role::Function => "the name of a function",
        Role::Cost => "a number of digits",
        _ => "another word",
    }
}

/// What the format has where something stands as this.
pub(crate) fn wanted(role: Role) -> &'static str {
    match role {
        Role::Whole(file) => whole(file),
        Role::Define => "the word `define`",
        Role::Title(file) => title(file),
        Role::Kind(file) => kind(file),
        Role::Name | Role::ActionName | Role::TypeName | Role::PrivateObject | Role::OneType => {
            "a name: a letter, then letters, digits, `-` and `_`"
        }
        Role::Section(file) | Role::SectionWord(file) => section(file),
        Role::Requirement => "a word, as `:typing`",
        Role::Object => {
            "a name: a letter, then letters, digits, `-` and `_`; or a block `(:private NAME ..)`"
        }
        Role::PrivateWord => "the word `:private`",
        Role::Signature(signed) => signature(signed),
        Role::PrivateSignature(signed) => private_signature(signed),
        Role::Declared(signed) => declared(signed),
        Role::Variable => "a variable: `?` and a name",
        Role::Dash => "a name or a variable, and only then `-` and its type",
        Role::AgentDash => "`-` and the type of the agent",
        Role::Type => "a type: a name, or `(either NAME ..)`",
        Role::Either => "the word `either`",
        Role::Number => "the word `number`",
        Role::Key => "a key: `:agent`, `:parameters`, `:precondition` or `:effect`",
        Role::Parameters => "a list of variables: `(?x - TYPE ..)`, or `()`",
        other => inside(other),
    }
}
