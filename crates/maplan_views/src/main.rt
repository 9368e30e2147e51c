//! Shows what the agents of worked examples show each other. Each line of the file `examples` has the words of one. Its
//! words and status are printed, and each agent's bytes before and after grounding. What must be printed was worked out by
//! hand.
#![tactic(auto)]

use mp_outside::{FileSource, MemSink};
use mp_top::{Report, alone, run_alone};
use std::alloc::{AllocGlobal, Global};
use std::fs;
use std::io::{self, Print};
use std::rt::Files;

/// The most bytes that a sink takes at a call.
const PIECE: usize = 4096;

/// The words of a line.
fn words(alloc: Global, line: &str) -> io::Result<Vec<String>> {
    let mut words = Vec::new(alloc);
    for word in line.split_whitespace() {
        words.push(String::from_str(alloc, word)?)?;
    }
    Ok(words)
}

/// Prints what each agent of a report shows.
fn show_views<R: Print>(rt: &R, report: &Report) -> io::Result<()> {
    for (before, view) in report.views.iter().enumerate() {
        let agent = before as u64 + 1;
        println!(rt; "agent {agent}")?;
        rt.write_all(view.as_slice())?;
    }
    Ok(())
}

/// Runs the words of a line, and prints what the agents show.
fn show_example<R: Files + AllocGlobal + Print>(rt: &R, line: &str) -> io::Result<()> {
    let alloc = rt.alloc();
    let mut source = FileSource::new(rt);
    let mut out = MemSink::new(alloc, PIECE, Vec::new(alloc));
    let mut err = MemSink::new(alloc, PIECE, Vec::new(alloc));
    let mut report = Report::new(alloc);
    let words = words(alloc, line)?;
    println!(rt; "[{line}]")?;
    if !alone(words.as_slice()) {
        return Ok(());
    }
    let status = run_alone(
        alloc,
        words.as_slice(),
        &mut source,
        &mut out,
        &mut err,
        &mut report,
    );
    let code = status.code();
    println!(rt; "status {code}")?;
    show_views(rt, &report)
}

fn main(rt: HostRuntime) -> io::Result<()> {
    let examples = fs::read_to_string(&rt, "examples")?;
    for line in examples.lines() {
        show_example(&rt, line)?;
    }
    Ok(())
}
