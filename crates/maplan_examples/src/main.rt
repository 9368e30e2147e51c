//! Runs worked examples of `maplan` over real files. Each line of the file `examples` has the words of one, and an
//! empty line has none. What each answers is printed: its words, the status, the output and the error stream. What
//! must be printed was worked out by hand.
#![tactic(auto)]

use mp_outside::{FileSource, MemSink, NoGate};
use mp_top::{Report, run};
use std::alloc::{AllocGlobal, Global};
use std::fs;
use std::io::{self, Print};
use std::rt::Files;
use std::sync::Wait;
use std::thread::Threads;

/// The most bytes that a sink takes at a call.
const PIECE: usize = 4096;

/// The words of a line.
fn words(alloc: Global, line: &str) -> io::Result<Vec<String>> {
    let mut words = Vec::new(alloc);
    for word in line.split_whitespace() {
        words.push(String::from_str(alloc, word)?)?;
    }
    Ok(words)
}

/// Prints some bytes under a heading with their number.
fn show<R: Print>(rt: &R, heading: &str, bytes: &[u8]) -> io::Result<()> {
    let count = bytes.len();
    println!(rt; "{heading} {count} bytes")?;
    rt.write_all(bytes)
}

/// Runs the words of a line, and prints what they answer.
fn show_example<R: Files + Threads + Wait + Sync + AllocGlobal + Print>(
    rt: &R,
    line: &str,
) -> io::Result<()> {
    let alloc = rt.alloc();
    let mut out = MemSink::new(alloc, PIECE, Vec::new(alloc));
    let mut err = MemSink::new(alloc, PIECE, Vec::new(alloc));
    let words = words(alloc, line)?;
    let mut report = Report::new(alloc);
    let status = run(
        rt,
        alloc,
        words.as_slice(),
        &mut FileSource::new(rt),
        &mut out,
        &mut err,
        &NoGate,
        &mut report,
    );
    let code = status.code();
    println!(rt; "[{line}]")?;
    println!(rt; "status {code}")?;
    show(rt, "output", out.bytes())?;
    show(rt, "error", err.bytes())
}

fn main(rt: HostRuntime) -> io::Result<()> {
    let examples = fs::read_to_string(&rt, "examples")?;
    for line in examples.lines() {
        show_example(&rt, line)?;
    }
    Ok(())
}
