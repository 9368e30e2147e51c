//! Words that begin something that is not supported.

use crate::wanted::{section, wanted};
use crate::ways::way;
use mp_forms::File;
use mp_hints::nearest;
use mp_positions::{Position, Role};
use std::alloc::{AllocError, Global};

/// The words of a domain's sections.
static DOMAIN_WORDS: [&str; 6] = [
    ":requirements",
    ":types",
    ":constants",
    ":predicates",
    ":functions",
    ":action",
];

/// The words of a problem's sections.
static PROBLEM_WORDS: [&str; 6] = [
    ":requirements",
    ":domain",
    ":objects",
    ":init",
    ":goal",
    ":metric",
];

/// The keys of an action.
static KEYS: [&str; 4] = [":agent", ":parameters", ":precondition", ":effect"];

/// Writes the nearest known spelling of a word, where there is one.
fn tell_nearest(
    alloc: Global,
    out: &mut String,
    word: &str,
    known: &[&str],
) -> Result<(), AllocError> {
    match nearest(alloc, word, known)? {
        Some(near) => write!(out, "; the nearest is `{near}`"),
        None => Ok(()),
    }
}

/// What is told of a word that begins no section, beside what stands there.
fn section_way(word: &str) -> &'static str {
    match word {
        ":durative-action" => {
            "instead: actions take no time here; `(:action NAME ..)`, with a condition as its precondition\n"
        }
        ":derived" => {
            "instead: let the actions that make the condition true or false add or delete the predicate\n"
        }
        ":constraints" => "instead: what is to hold in the end stands in `:goal`\n",
        ":private" => {
            "instead: private blocks stand inside `:constants`, `:objects`, `:predicates` and `:functions`\n"
        }
        _ => "",
    }
}

/// The words of a file's sections.
fn section_words(file: File) -> &'static [&'static str] {
    match file {
        File::Domain => &DOMAIN_WORDS,
        File::Problem => &PROBLEM_WORDS,
    }
}

/// Tells of a word that begins no section, or a metric of another kind.
fn tell_section_word(
    alloc: Global,
    out: &mut String,
    file: File,
    word: &str,
) -> Result<(), AllocError> {
    if word == ":metric" {
        return out.push_str(
            "this metric is not supported\nwanted: `(:metric minimize (total-cost))`; without a metric each action costs 1\n",
        );
    }
    write!(out, "`{word}` begins no section that is supported")?;
    tell_nearest(alloc, out, word, section_words(file))?;
    let wanted = section(file);
    write!(out, "\nwanted: {wanted}\n")?;
    out.push_str(section_way(word))
}

/// Tells of a word that is no key of an action.
fn tell_key(alloc: Global, out: &mut String, word: &str) -> Result<(), AllocError> {
    write!(out, "`{word}` is no key of an action")?;
    tell_nearest(alloc, out, word, &KEYS)?;
    let wanted = wanted(Role::Key);
    write!(out, "\nwanted: {wanted}\n")
}

/// Tells of privacy that is not factored.
fn tell_requirement(out: &mut String) -> Result<(), AllocError> {
    out.push_str(
        "one pair of files for all agents is not supported\ninstead: write a domain and a problem for each agent, with its own objects and actions; what it keeps to itself stands there in blocks `(:private ..)` of `:predicates`, `:constants` and `:objects`\n",
    )
}

/// Tells of a word that is not supported at this place, and how else to write what it begins.
pub(crate) fn tell_unsupported(
    alloc: Global,
    out: &mut String,
    position: &Position<'_>,
    word: &str,
) -> Result<(), AllocError> {
    match position.role {
        Role::SectionWord(file) => tell_section_word(alloc, out, file, word),
        Role::Key => tell_key(alloc, out, word),
        Role::Requirement => tell_requirement(out),
        _ => {
            let way = way(position, word);
            write!(out, "`{word}` is not supported here\ninstead: {way}\n")
        }
    }
}
