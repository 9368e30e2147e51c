//! Lines of a text, each of which is to stand once.

ghost use Rattle.std.specs.Prelude.{◌≤◌, length};

use crate::texts::TextSet;
use mp_list::OutOfMemory;
use mp_messages::Bytes;
use std::alloc::Global;

/// How many bytes the first line has, with its line feed, where it has one.
fn line_size(text: &[u8]) -> usize
    ensures { result ≤ length text.now }
{
    match text.iter().position(|byte| *byte == b'\n') {
        Some(end) => end + 1,
        None => text.len(),
    }
}

/// The first line of a text, with its line feed, where it has one, and what follows it.
pub fn first_line(text: &[u8]) -> (&[u8], &[u8]) {
    text.split_at(line_size(text))
}

/// The bytes of a text between two places, none where there are no such places.
fn between(text: &[u8], start: usize, end: usize) -> &[u8] {
    if start <= end && end <= text.len() {
        return &text[start..end];
    }
    b""
}

/// Appends the lines of a text that are not among these yet, and notes each.
fn push_lines<'a>(
    out: &mut Bytes,
    seen: &mut TextSet<'a>,
    text: &'a [u8],
) -> Result<(), OutOfMemory> {
    let mut start = 0;
    for (at, byte) in text.iter().enumerate() {
        if *byte == b'\n' {
            let line = between(text, start, at.saturating_add(1));
            if seen.insert(line)? {
                out.extend_from_slice(line)?;
            }
            start = at.saturating_add(1);
        }
    }
    Ok(())
}

/// Notes the lines of a text.
fn note_lines<'a>(seen: &mut TextSet<'a>, text: &'a [u8]) -> Result<(), OutOfMemory> {
    let mut start = 0;
    for (at, byte) in text.iter().enumerate() {
        if *byte == b'\n' {
            seen.insert(between(text, start, at.saturating_add(1)))?;
            start = at.saturating_add(1);
        }
    }
    Ok(())
}

/// Appends the lines of a text that do not stand in another one, each once, in the order in which they come first. Each
/// line ends with a line feed. Refuses only for want of memory.
pub fn push_new_lines<'a>(
    alloc: Global,
    out: &mut Bytes,
    old: &'a [u8],
    text: &'a [u8],
) -> Result<(), OutOfMemory> {
    let mut seen = TextSet::new(alloc);
    note_lines(&mut seen, old)?;
    push_lines(out, &mut seen, text)
}
