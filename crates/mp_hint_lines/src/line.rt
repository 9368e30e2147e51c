//! Places of files.

use mp_list::OutOfMemory;
use mp_sexp::Place;

/// Writes a place of a file.
pub fn push_place(out: &mut String, file: &str, at: Place) -> Result<(), OutOfMemory> {
    let line = at.line;
    let column = at.column;
    write!(out, "{file}:{line}:{column}")?;
    Ok(())
}

/// Begins the line of a hint on a place of a file.
pub fn begin_hint(out: &mut String, file: &str, at: Place) -> Result<(), OutOfMemory> {
    push_place(out, file, at)?;
    out.push_str(": hint: ")?;
    Ok(())
}
