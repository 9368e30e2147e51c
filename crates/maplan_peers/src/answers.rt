//! What a step answers, as lines.

use mp_list::OutOfMemory;
use mp_machine::{BadKind, Out, Outs, StepRefusal};
use std::alloc::Global;

/// The name of a kind of bad messages.
pub(crate) fn name(kind: BadKind) -> &'static str {
    match kind {
        BadKind::NotASpelling => "no spelling",
        BadKind::UnknownToken => "unknown token",
        BadKind::WrongByte => "wrong byte",
        BadKind::StrangeMarker => "strange marker",
        BadKind::StrangeReport => "strange report",
        BadKind::StrangePick => "strange pick",
        BadKind::StrangeTrace => "strange trace",
        BadKind::StrangeLength => "strange length",
        BadKind::StrangeDone => "strange done",
    }
}

/// Adds the line of a message that goes out.
fn add_message(alloc: Global, out: &mut String, message: &Out) -> Result<(), OutOfMemory> {
    let to = message.to.number();
    let bytes = hex::encode(alloc, message.bytes.as_slice())?;
    write!(out, "  to {to} {bytes}\n")?;
    Ok(())
}

/// Adds the lines of the messages that go out.
fn add_messages(alloc: Global, out: &mut String, messages: &[Out]) -> Result<(), OutOfMemory> {
    for message in messages {
        add_message(alloc, out, message)?;
    }
    Ok(())
}

/// Adds the line of a refusal.
fn add_refusal(out: &mut String, refusal: StepRefusal) -> Result<(), OutOfMemory> {
    match refusal {
        StepRefusal::NotNow => out.push_str("  not now\n")?,
        StepRefusal::Bad(kind) => {
            let name = name(kind);
            write!(out, "  bad {name}\n")?
        }
        StepRefusal::OutOfMemory => out.push_str("  out of memory\n")?,
    }
    Ok(())
}

/// Adds the lines of what a step answers.
pub(crate) fn add_answer(
    alloc: Global,
    out: &mut String,
    answer: &Result<Outs, StepRefusal>,
) -> Result<(), OutOfMemory> {
    match answer {
        Ok(messages) => add_messages(alloc, out, messages.as_slice()),
        Err(refusal) => add_refusal(out, *refusal),
    }
}
