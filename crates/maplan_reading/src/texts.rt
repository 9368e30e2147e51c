//! What the texts of the two files say.

use mp_factor::{domain, problem};
use mp_forms::{Domain, Problem};
use mp_sexp::{Tree, read};
use mp_typing::{CheckRefusal, CheckedFactor, check};
use std::alloc::Global;

/// The texts of the two files that questions are about, as they stand in the cases.
#[derive(Clone, Copy, Debug)]
pub(crate) struct Texts<'a> {
    pub(crate) domain: &'a str,
    pub(crate) problem: &'a str,
}

/// The tree of a short text.
fn short_tree(alloc: Global, text: &[u8]) -> Option<Tree> {
    if text.len() > 10_000 {
        return None;
    }
    read(alloc, text).ok()
}

/// The tree of a short text, with its line feeds put in.
pub(crate) fn tree_in(alloc: Global, text: &str) -> Option<Tree> {
    let text = text.replace(alloc, "\\n", "\n").ok()?;
    short_tree(alloc, text.as_bytes())
}

/// The domain that a text says, where it says one.
fn domain_in(alloc: Global, text: &str) -> Option<Domain> {
    let tree = tree_in(alloc, text)?;
    domain(alloc, &tree).ok()
}

/// The problem that a text says, where it says one.
fn problem_in(alloc: Global, text: &str) -> Option<Problem> {
    let tree = tree_in(alloc, text)?;
    problem(alloc, &tree).ok()
}

/// What the check of the two files answers, where they are a domain and a problem.
pub(crate) fn checked(
    alloc: Global,
    texts: Texts<'_>,
) -> Option<Result<CheckedFactor, CheckRefusal>> {
    let domain = domain_in(alloc, texts.domain)?;
    let problem = problem_in(alloc, texts.problem)?;
    Some(check(alloc, domain, problem))
}
