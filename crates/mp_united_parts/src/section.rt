//! Sections whose members stand on lines, each once.

use mp_list::OutOfMemory;
use mp_messages::Bytes;
use mp_united_names::push_new_lines;
use std::alloc::Global;

/// Appends a section: what it begins with, those of these lines that do not stand in another text, each once, and its
/// closing bracket.
pub fn push_section(
    alloc: Global,
    out: &mut Bytes,
    head: &[u8],
    old: &[u8],
    lines: &[u8],
) -> Result<(), OutOfMemory> {
    out.extend_from_slice(head)?;
    push_new_lines(alloc, out, old, lines)?;
    out.extend_from_slice(b" )\n")
}
