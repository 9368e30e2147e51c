//! A line of a file, with a mark below the place that is meant.

use crate::text::Shown;
use std::alloc::AllocError;

/// The most bytes of a line that are quoted before and from the place.
const BEFORE: usize = 60;

const FROM: usize = 40;

/// The line of this number, counted from 1, without its line feed; nothing where there are fewer lines.
pub fn line_at(text: &[u8], number: u32) -> &[u8] {
    let mut rest = text;
    for _ in 1..number {
        match rest.iter().position(|byte| *byte == b'\n') {
            Some(end) => rest = &rest[end + 1..],
            None => return b"",
        }
    }
    match rest.iter().position(|byte| *byte == b'\n') {
        Some(end) => &rest[..end],
        None => rest,
    }
}

/// Writes a byte of a quoted line: a tab as it stands, any other byte that is not printed as a blank.
fn push_byte(out: &mut String, byte: u8) -> Result<(), AllocError> {
    if byte == b'\t' {
        return out.push('\t');
    }
    if 32 <= byte && byte <= 126 {
        return out.push(char::from(byte));
    }
    out.push(' ')
}

/// Writes what stands below the bytes before the place, so that the mark comes below the place.
fn push_below(out: &mut String, before: &[u8]) -> Result<(), AllocError> {
    for byte in before {
        out.push(if *byte == b'\t' { '\t' } else { ' ' })?;
    }
    Ok(())
}

/// Writes the part of a line around its place of this number, counted from 0, and a line with `^` below that place.
pub fn quote(out: &mut String, line: &[u8], at: usize) -> Result<(), AllocError> {
    let at = at.min(line.len());
    let first = at.saturating_sub(BEFORE);
    let end = line.len().min(at.saturating_add(FROM));
    out.push_str("  ")?;
    for byte in &line[first..end] {
        push_byte(out, *byte)?;
    }
    out.push_str("\n  ")?;
    push_below(out, &line[first..at])?;
    out.push_str("^\n")
}
