//! One file by itself: its tree, or what is wrong with its length, its text or its shape.

ghost use Rattle.std.specs.Prelude.{◌≡◌, ◌≤◌, [], true, length, IfOk, IfSome, IfNone};
ghost use Rattle.mp_sexp.specs.Node.{node_of};
ghost use Rattle.mp_sexp.specs.Spelling.{HasTree};
ghost use Rattle.mp_file_hints.specs.Accepted.{IsShaped, longest_file, shape_faults};

use mp_bracket_hints::{FileText, tell_char, tell_deep, tell_trailing, tell_unbalanced};
use mp_factor::{domain_fault, problem_fault};
use mp_forms::{Fault, FaultKind, File};
use mp_hints::text_of;
use mp_list::OutOfMemory;
use mp_sexp::{ReadRefusal, Tree, read};
use mp_shape_hints::{tell_shape, tell_unsupported_word};
use std::alloc::{AllocError, Global};

/// The greatest number of bytes of a factor's file.
const LONGEST: usize = 4_194_304;

/// Tells of a file that is too long.
fn tell_long(out: &mut String, file: FileText<'_>) -> Result<(), AllocError> {
    let name = file.name;
    let length = file.text.len();
    write!(
        out,
        "{name}: too large\nthe bytes of the file: {length} or more\nwanted: at most {LONGEST}\n"
    )
}

/// Tells why a text has no tree.
fn tell_unread(
    alloc: Global,
    out: &mut String,
    file: FileText<'_>,
    refusal: ReadRefusal,
) -> Result<(), OutOfMemory> {
    match refusal {
        ReadRefusal::Char(place) => tell_char(out, file, place)?,
        ReadRefusal::Unbalanced(place) => tell_unbalanced(alloc, out, file, place)?,
        ReadRefusal::Trailing(place) => tell_trailing(alloc, out, file, place)?,
        ReadRefusal::Deep(place) => tell_deep(out, file, place)?,
        ReadRefusal::OutOfMemory => return Err(OutOfMemory),
    }
    Ok(())
}

/// Tells of a fault of a tree's shape.
fn tell_fault(
    alloc: Global,
    out: &mut String,
    file: FileText<'_>,
    which: File,
    tree: &Tree,
    fault: &Fault,
) -> Result<(), AllocError> {
    match fault.kind {
        FaultKind::Unsupported => {
            let word = text_of(fault.word.as_slice());
            tell_unsupported_word(alloc, out, file, which, tree, word, fault.place)
        }
        kind => tell_shape(out, file, which, tree, kind, fault.place),
    }
}

/// The first fault of a file's tree. Refuses only for want of memory.
fn fault_of(alloc: Global, which: File, tree: &Tree) -> Result<Option<Fault>, OutOfMemory>
    ensures { IfOk result (λ fault. IfNone fault (shape_faults which (node_of tree.now) ≡ [])) }
{
    match which {
        File::Domain => domain_fault(alloc, tree),
        File::Problem => problem_fault(alloc, tree),
    }
}

/// Whether a tree has the shape of a factor's file; what is wrong with it is told. Refuses only for want of memory.
fn has_shape(
    alloc: Global,
    out: &mut String,
    file: FileText<'_>,
    which: File,
    tree: &Tree,
) -> Result<bool, OutOfMemory>
    ensures { IfOk result (λ fine. fine ≡ true → shape_faults which (node_of tree.now) ≡ []) }
{
    match fault_of(alloc, which, tree)? {
        Some(fault) => {
            tell_fault(alloc, out, file, which, tree, &fault)?;
            Ok(false)
        }
        None => Ok(true),
    }
}

/// A tree, where it has the shape of a factor's file; what is wrong with it is told. Refuses only for want of memory.
fn kept(
    alloc: Global,
    out: &mut String,
    file: FileText<'_>,
    which: File,
    tree: Tree,
) -> Result<Option<Tree>, OutOfMemory>
    requires short { length file.text.now ≤ longest_file }
    requires tree { HasTree file.text.now (node_of tree) }
    ensures { IfOk result (λ kept. IfSome kept (λ same. IsShaped which file.entry.text.now (node_of same))) }
{
    if has_shape(alloc, out, file, which, &tree)? {
        Ok(Some(tree))
    } else {
        Ok(None)
    }
}

/// The tree of a file, where its text and its shape are those of a factor's file; what is wrong with it is told. Refuses
/// only for want of memory.
pub(crate) fn tree_of(
    alloc: Global,
    out: &mut String,
    file: FileText<'_>,
    which: File,
) -> Result<Option<Tree>, OutOfMemory>
    ensures { IfOk result (λ kept. IfSome kept (λ tree. IsShaped which file.entry.text.now (node_of tree))) }
{
    if file.text.len() > LONGEST {
        tell_long(out, file)?;
        return Ok(None);
    }
    match read(alloc, file.text) {
        Ok(tree) => kept(alloc, out, file, which, tree),
        Err(refusal) => {
            tell_unread(alloc, out, file, refusal)?;
            Ok(None)
        }
    }
}
