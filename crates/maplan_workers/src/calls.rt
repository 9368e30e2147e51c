//! Calls of the program over the files of the data.

use mp_outside::{FileSource, Gate, MemSink};
use mp_top::{Report, run};
use std::alloc::Global;
use std::io;
use std::rt::Files;
use std::sync::Wait;
use std::thread::Threads;

/// The most bytes that a sink takes at a call.
pub(crate) const PIECE: usize = 4096;

/// What a call leaves behind.
#[derive(Drop)]
pub(crate) struct Answer {
    /// The status.
    pub(crate) code: u8,
    /// The first line of the output, or of the error stream where nothing was put out, without its line feed.
    pub(crate) line: Vec<u8>,
}

/// The words of a line.
fn words_of(alloc: Global, line: &str) -> io::Result<Vec<String>> {
    let mut words = Vec::new(alloc);
    for word in line.split_whitespace() {
        words.push(String::from_str(alloc, word)?)?;
    }
    Ok(words)
}

/// The first line of a text.
pub(crate) fn first_line(text: &[u8]) -> &[u8] {
    for (at, byte) in text.iter().enumerate() {
        if *byte == b'\n' {
            return &text[..at];
        }
    }
    text
}

/// The first line of the output, or of the error stream where nothing was put out.
fn line_of<'a>(out: &'a [u8], err: &'a [u8]) -> &'a [u8] {
    if out.is_empty() {
        return first_line(err);
    }
    first_line(out)
}

/// Calls the program with the words of a line, while agents that workers serve pass a gate.
pub(crate) fn call_with<R: Files + Threads + Wait + Sync, G: Gate + Sync>(
    rt: &R,
    alloc: Global,
    line: &str,
    gate: &G,
) -> io::Result<Answer> {
    let words = words_of(alloc, line)?;
    let mut source = FileSource::new(rt);
    let mut out = MemSink::new(alloc, PIECE, Vec::new(alloc));
    let mut err = MemSink::new(alloc, PIECE, Vec::new(alloc));
    let mut report = Report::new(alloc);
    let status = run(
        rt,
        alloc,
        words.as_slice(),
        &mut source,
        &mut out,
        &mut err,
        gate,
        &mut report,
    );
    Ok(Answer {
        code: status.code(),
        line: line_of(out.bytes(), err.bytes()).to_vec(alloc)?,
    })
}
