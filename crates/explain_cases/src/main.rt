//! Shows what `maplan_explain` prints for worked examples. Each line of the file `examples` has the words of one. Its words,
//! its status, its output and its error stream are printed. What must be printed was worked out by hand.
#![tactic(auto)]

use mp_explain::explain;
use mp_outside::{FileSource, MemSink};
use std::alloc::{AllocGlobal, Global};
use std::fs;
use std::io::{self, Print};
use std::rt::Files;

/// The most bytes that a sink takes at a call.
const PIECE: usize = 4096;

/// The words of a line.
fn words(alloc: Global, line: &str) -> io::Result<Vec<String>> {
    let mut words = Vec::new(alloc);
    for word in line.split_whitespace() {
        words.push(String::from_str(alloc, word)?)?;
    }
    Ok(words)
}

/// Runs the words of a line, and prints what comes out.
fn show_example<R: Files + AllocGlobal + Print>(rt: &R, line: &str) -> io::Result<()> {
    let alloc = rt.alloc();
    let mut out = MemSink::new(alloc, PIECE, Vec::new(alloc));
    let mut err = MemSink::new(alloc, PIECE, Vec::new(alloc));
    let words = words(alloc, line)?;
    println!(rt; "[{line}]")?;
    let mut source = FileSource::new(rt);
    let ending = explain(alloc, words.as_slice(), &mut source, &mut out, &mut err);
    let code = ending.code();
    println!(rt; "status {code}")?;
    rt.write_all(out.bytes())?;
    rt.write_all(err.bytes())
}

fn main(rt: HostRuntime) -> io::Result<()> {
    let examples = fs::read_to_string(&rt, "examples")?;
    for line in examples.lines() {
        show_example(&rt, line)?;
    }
    Ok(())
}
