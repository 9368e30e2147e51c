//! The trace of a run before its outcome.

use mp_list::OutOfMemory;
use mp_messages::{Bytes, Log};
use mp_text::trace_text;
use std::alloc::Global;

/// Appends what an outcome is behind a trace: the trace, and the line between them.
fn push_outcome(text: &mut Bytes, outcome: &[u8]) -> Result<(), OutOfMemory> {
    text.extend_from_slice(b"answer\n")?;
    text.extend_from_slice(outcome)
}

/// The trace of a run that is over, with its outcome behind it.
pub(crate) fn traced(alloc: Global, log: &Log, outcome: &[u8]) -> Result<Bytes, OutOfMemory> {
    let mut text = trace_text(alloc, log)?;
    push_outcome(&mut text, outcome)?;
    Ok(text)
}
