//! Texts that are no list in brackets.

use crate::brackets::{Brackets, brackets_of};
use crate::place::{FileText, push_place, tell_place};
use mp_hints::line_at;
use mp_sexp::Place;
use std::alloc::{AllocError, Global};

/// Tells of a byte that may stand in comments alone.
pub fn tell_char(out: &mut String, file: FileText<'_>, place: Place) -> Result<(), AllocError> {
    tell_place(out, file, place, "F1 char", "")?;
    let at = place.column.saturating_sub(1) as usize;
    let byte = match line_at(file.text, place.line).get(at) {
        Some(byte) => *byte,
        None => 0,
    };
    write!(out, "the byte {byte} stands outside a comment\n")?;
    out.push_str(
        "wanted: blanks, tabs, line ends, brackets, words of the bytes 33 to 126, and comments from `;` to the end of a line\n",
    )
}

/// Tells which list is open at the end of a text.
fn tell_open(out: &mut String, seen: &Brackets) -> Result<(), AllocError> {
    match seen.innermost() {
        Some(list) => {
            out.push_str(
                "the text ends before its list is closed\nwanted: the closing bracket of ",
            )?;
            push_place(out, list)?;
            out.push('\n')
        }
        None => out.push_str(
            "the text has no list\nwanted: `(define (domain NAME) ..)` or `(define (problem NAME) ..)`\n",
        ),
    }
}

/// Tells of a section that stands in another list than the file's.
fn tell_nested(out: &mut String, seen: &Brackets) -> Result<(), AllocError> {
    match seen.nested() {
        Some((section, list)) => {
            out.push_str("hint: the section at ")?;
            push_place(out, section)?;
            out.push_str(" stands in the list that begins at ")?;
            push_place(out, list)?;
            out.push_str("; is the closing bracket of that list missing before it?\n")
        }
        None => Ok(()),
    }
}

/// Tells what the brackets of an unbalanced text lack.
fn tell_lacking(out: &mut String, seen: &Brackets, place: Place) -> Result<(), AllocError> {
    if seen.ends_at(place) {
        tell_open(out, seen)?;
        return tell_nested(out, seen);
    }
    out.push_str(
        "something stands before the list that the file is\nwanted: the opening bracket of `(define ..)`\n",
    )
}

/// Tells of a text that ends before its list is closed, or that begins with something else than a list.
pub fn tell_unbalanced(
    alloc: Global,
    out: &mut String,
    file: FileText<'_>,
    place: Place,
) -> Result<(), AllocError> {
    tell_place(out, file, place, "F2 unbalanced", "")?;
    let seen = brackets_of(alloc, file.text)?;
    tell_lacking(out, &seen, place)
}

/// Tells which bracket closed the list that a file is.
fn tell_closed(out: &mut String, seen: &Brackets) -> Result<(), AllocError> {
    out.push_str(
        "something stands behind the list that the file is\nwanted: the end of the file\n",
    )?;
    match seen.closed() {
        Some(place) => {
            out.push_str("hint: the bracket at ")?;
            push_place(out, place)?;
            out.push_str(" closes that list; is there one closing bracket too many up to there?\n")
        }
        None => Ok(()),
    }
}

/// Tells of something that stands behind the list that a file is.
pub fn tell_trailing(
    alloc: Global,
    out: &mut String,
    file: FileText<'_>,
    place: Place,
) -> Result<(), AllocError> {
    tell_place(out, file, place, "F3 trailing", "")?;
    let seen = brackets_of(alloc, file.text)?;
    tell_closed(out, &seen)
}

/// Tells of a bracket that is the 101st open one.
pub fn tell_deep(out: &mut String, file: FileText<'_>, place: Place) -> Result<(), AllocError> {
    tell_place(out, file, place, "F11 deep", "")?;
    out.push_str("this bracket is the 101st that is open\nwanted: at most 100 open brackets\n")
}
