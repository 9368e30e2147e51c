//! The two files of an agent.

use mp_bracket_hints::{FileText, push_place};
use mp_forms::File;
use mp_sexp::{Place, Tree};
use std::alloc::AllocError;

/// The two files of an agent, each with its tree.
#[derive(Clone, Copy)]
pub struct Pair<'t> {
    pub domain: FileText<'t>,
    pub domain_tree: &'t Tree,
    pub problem: FileText<'t>,
    pub problem_tree: &'t Tree,
}

impl<'t> Pair<'t> {
    /// One of the files.
    pub(crate) fn file(&self, which: File) -> FileText<'t> {
        match which {
            File::Domain => self.domain,
            File::Problem => self.problem,
        }
    }

    /// The tree of one of the files.
    pub(crate) fn tree(&self, which: File) -> &'t Tree {
        match which {
            File::Domain => self.domain_tree,
            File::Problem => self.problem_tree,
        }
    }
}

/// Writes a place with the name of its file.
pub(crate) fn push_place_of(
    out: &mut String,
    file: FileText<'_>,
    place: Place,
) -> Result<(), AllocError> {
    let name = file.name;
    write!(out, "{name}:")?;
    push_place(out, place)
}
