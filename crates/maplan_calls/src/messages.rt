//! Messages of every kind, and bytes that are none.

ghost use Rattle.std.specs.Prelude.{◌^◌, ◌-◌};
ghost use Rattle.mp_messages.specs.Spelling.{AreNumbers, FactsBelow};

use crate::calls::{Call, Out};
use mp_list::{Copied, List, OutOfMemory};
use mp_messages::{Entry, Message, decode, encode};
use mp_sets::Agent;
use std::alloc::Global;

/// Adds a message, and its bytes in hexadecimal.
fn show_message(alloc: Global, message: &Message, out: &mut Out) -> Result<(), OutOfMemory>
    requires numbers { AreNumbers message.now }
    requires facts { FactsBelow (2 ^ 32 - 1) message.now }
{
    let bytes = encode(alloc, message)?;
    out.show(message);
    out.answer(&hex::encode(alloc, bytes.as_slice())?)
}

/// Adds the message that bytes spell, and its bytes.
fn read_message(alloc: Global, bytes: &[u8], out: &mut Out) -> Result<(), OutOfMemory> {
    match decode(alloc, 2, 3, bytes) {
        Ok(message) => show_message(alloc, &message, out),
        Err(refusal) => out.answer(&refusal),
    }
}

/// Adds a copy of the state that bytes spell.
fn copy(alloc: Global, bytes: &[u8], out: &mut Out) -> Result<(), OutOfMemory> {
    match decode(alloc, 2, 3, bytes) {
        Ok(Message::State(state)) => out.answer(&state.copy()?),
        _ => out.answer_not_read(),
    }
}

/// Adds a copy of an entry of a log with these bytes.
fn entry(alloc: Global, bytes: &[u8], out: &mut Out) -> Result<(), OutOfMemory> {
    let mut list = List::new(alloc);
    list.extend_from_slice(bytes)?;
    let entry = Entry::Took {
        by: Agent::first(),
        from: Agent::first(),
        bytes: list,
    };
    out.answer(&entry.copy()?)
}

/// Adds what a call with bytes answers.
fn answer_bytes(alloc: Global, word: &str, bytes: &[u8], out: &mut Out) -> Result<(), OutOfMemory> {
    match word {
        "read" => read_message(alloc, bytes, out),
        "copy" => copy(alloc, bytes, out),
        "entry" => entry(alloc, bytes, out),
        _ => out.answer_not_read(),
    }
}

/// Adds what a call of messages answers.
pub(crate) fn answer_messages(
    alloc: Global,
    call: Call<'_>,
    out: &mut Out,
) -> Result<(), OutOfMemory> {
    match hex::decode(alloc, call.rest) {
        Ok(bytes) => answer_bytes(alloc, call.word, bytes.as_slice(), out),
        Err(_) => out.answer_not_read(),
    }
}
