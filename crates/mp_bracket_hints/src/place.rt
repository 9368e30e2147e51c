//! The place of a fault: its file, line and column, its code, and the line itself.

use mp_hints::{line_at, quote};
use mp_sexp::Place;
use std::alloc::AllocError;

/// A file: its name as it was given, and its bytes.
#[derive(Clone, Copy)]
pub struct FileText<'a> {
    pub name: &'a str,
    pub text: &'a [u8],
}

/// Writes a line and a column.
pub fn push_place(out: &mut String, place: Place) -> Result<(), AllocError> {
    let line = place.line;
    let column = place.column;
    write!(out, "{line}:{column}")
}

/// Writes a line with a mark below this column; nothing of an empty line.
pub fn quote_place(out: &mut String, text: &[u8], place: Place) -> Result<(), AllocError> {
    let line = line_at(text, place.line);
    if line.is_empty() {
        return Ok(());
    }
    quote(out, line, place.column.saturating_sub(1) as usize)
}

/// Writes where a fault stands, its code with a word of the file, and the line with a mark below the place.
pub fn tell_place(
    out: &mut String,
    file: FileText<'_>,
    place: Place,
    code: &str,
    word: &str,
) -> Result<(), AllocError> {
    let name = file.name;
    write!(out, "{name}:")?;
    push_place(out, place)?;
    write!(out, ": {code}{word}\n")?;
    quote_place(out, file.text, place)
}
