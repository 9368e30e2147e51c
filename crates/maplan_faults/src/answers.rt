//! Answers, as lines.

use crate::calls::Answer;
use mp_list::OutOfMemory;
use std::alloc::Global;

/// The most bytes that are printed whole.
const MOST: usize = 1_000;

/// How many of the last bytes of more are printed.
const LAST: usize = 200;

/// Adds these bytes.
pub(crate) fn show(out: &mut Vec<u8>, bytes: &[u8]) -> Result<(), OutOfMemory> {
    out.extend_from_slice(bytes)?;
    Ok(())
}

/// Adds a number in decimal.
pub(crate) fn show_number(out: &mut Vec<u8>, number: u64) -> Result<(), OutOfMemory> {
    let digits = format!(in *out.allocator(); "{number}")?;
    show(out, digits.as_bytes())
}

/// Adds a number of bytes.
fn show_count(out: &mut Vec<u8>, count: usize) -> Result<(), OutOfMemory> {
    show_number(out, count as u64)?;
    show(out, b" bytes")
}

/// Adds a status.
fn show_status(out: &mut Vec<u8>, code: Option<u8>) -> Result<(), OutOfMemory> {
    match code {
        Some(code) => {
            show(out, b"status ")?;
            show_number(out, u64::from(code))
        }
        None => show(out, b"more than one thread"),
    }
}

/// Adds the bytes of an output or error stream under a heading with their number.
fn show_stream(out: &mut Vec<u8>, heading: &[u8], bytes: &[u8]) -> Result<(), OutOfMemory> {
    show(out, heading)?;
    show_count(out, bytes.len())?;
    show(out, b"\n")?;
    if bytes.len() > MOST {
        return show(out, &bytes[bytes.len() - LAST..]);
    }
    show(out, bytes)
}

/// Adds an answer with all that was printed.
pub(crate) fn show_answer(out: &mut Vec<u8>, answer: &Answer) -> Result<(), OutOfMemory> {
    show_status(out, answer.code)?;
    show_stream(out, b"\noutput ", answer.out.as_slice())?;
    show_stream(out, b"error ", answer.err.as_slice())
}

/// Adds a byte; a line feed as `\n`.
fn add_byte(text: &mut Vec<u8>, byte: u8) -> Result<(), OutOfMemory> {
    if byte == b'\n' {
        return show(text, b"\\n");
    }
    text.push(byte)?;
    Ok(())
}

/// Adds bytes in brackets.
fn add_bytes(text: &mut Vec<u8>, bytes: &[u8]) -> Result<(), OutOfMemory> {
    show(text, b"[")?;
    for byte in bytes {
        add_byte(text, *byte)?;
    }
    show(text, b"]")
}

/// How many bytes of a text are those that another one begins with, and what comes after these.
fn parted<'a>(text: &'a [u8], other: &[u8]) -> (usize, &'a [u8]) {
    for (at, byte) in text.iter().enumerate() {
        if other.get(at) != Some(byte) {
            return (at, &text[at..]);
        }
    }
    (text.len(), &text[text.len()..])
}

/// Whether a text is so many first bytes of another one.
fn is_front(text: &[u8], other: &[u8], count: usize) -> bool {
    count <= other.len() && text == &other[..count]
}

/// Describes what a sink took that is neither nothing nor all.
fn describe_part(text: &mut Vec<u8>, taken: &[u8], whole: &[u8]) -> Result<(), OutOfMemory> {
    let (count, rest) = parted(taken, whole);
    if count == 0 {
        return add_bytes(text, rest);
    }
    show_count(text, count)?;
    if rest.is_empty() {
        return Ok(());
    }
    show(text, b" and ")?;
    add_bytes(text, rest)
}

/// Describes what a sink took, beside all that it takes where nothing fails, and the number of bytes that it takes before the
/// call that fails.
fn describe_taken(
    text: &mut Vec<u8>,
    taken: &[u8],
    whole: &[u8],
    before: usize,
) -> Result<(), OutOfMemory> {
    if taken.is_empty() {
        return show(text, b"nothing");
    }
    if taken == whole {
        return show(text, b"all");
    }
    if is_front(taken, whole, before) {
        return show(text, b"what came before");
    }
    describe_part(text, taken, whole)
}

/// An answer, described beside that where nothing is done to devices and files. The last two numbers are those of the bytes
/// that the output and the error stream take before the call that fails.
pub(crate) fn described(
    alloc: Global,
    answer: &Answer,
    whole: &Answer,
    before_out: usize,
    before_err: usize,
) -> Result<Vec<u8>, OutOfMemory> {
    let mut text = Vec::new(alloc);
    show_status(&mut text, answer.code)?;
    show(&mut text, b", output ")?;
    describe_taken(
        &mut text,
        answer.out.as_slice(),
        whole.out.as_slice(),
        before_out,
    )?;
    show(&mut text, b", error ")?;
    describe_taken(
        &mut text,
        answer.err.as_slice(),
        whole.err.as_slice(),
        before_err,
    )?;
    Ok(text)
}
