//! Pieces of the output.

use mp_forms::Word;
use mp_list::OutOfMemory;
use mp_sexp::Place;

/// Adds these bytes.
pub(crate) fn show(out: &mut Vec<u8>, bytes: &[u8]) -> Result<(), OutOfMemory> {
    out.extend_from_slice(bytes)?;
    Ok(())
}

/// Adds a number in decimal.
pub(crate) fn show_number(out: &mut Vec<u8>, number: u64) -> Result<(), OutOfMemory> {
    let digits = format!(in *out.allocator(); "{number}")?;
    show(out, digits.as_bytes())
}

/// Adds `LINE:COLUMN`.
pub(crate) fn show_place(out: &mut Vec<u8>, place: Place) -> Result<(), OutOfMemory> {
    show_number(out, u64::from(place.line))?;
    show(out, b":")?;
    show_number(out, u64::from(place.column))
}

/// Adds a word.
pub(crate) fn show_word(out: &mut Vec<u8>, word: &Word) -> Result<(), OutOfMemory> {
    show(out, word.name.as_slice())
}

/// Adds the line of texts that are no such files, and of a line that can't be read.
pub(crate) fn show_not_read(out: &mut Vec<u8>) -> Result<(), OutOfMemory> {
    show(out, b"  not read\n")
}
