//! A whole file out of a source in memory, a whole text into a sink in memory, and a gate.

ghost use Rattle.std.specs.Prelude.{◌<◌, ◌^◌};

use crate::calls::{Call, Out};
use crate::lines::{long, part, short};
use mp_list::{List, OutOfMemory};
use mp_outside::{Gate, Kind3, MemSink, MemSource, NamedText, NoGate, fetch, put};
use mp_sets::Agent;
use std::alloc::Global;

/// A source of one file `d` of five bytes, with one failing call (none for 0).
fn source(alloc: Global, greatest: usize, failing: u64) -> Result<MemSource, OutOfMemory>
    requires { 0 < greatest }
{
    let mut files = List::new(alloc);
    let name = String::from_str(alloc, "d")?;
    let text = b"abcde".to_vec(alloc)?;
    files.push(NamedText { name, text })?;
    Ok(MemSource::new(files, greatest, [failing].to_vec(alloc)?))
}

/// Adds what is fetched of a file, and how many faults there were.
fn fetched(alloc: Global, greatest: usize, rest: &str, out: &mut Out) -> Result<(), OutOfMemory>
    requires { 0 < greatest }
{
    let mut source = source(alloc, greatest, long(rest, 1))?;
    match fetch(alloc, &mut source, part(rest, 1), short(rest, 2) as usize) {
        Ok(bytes) => out.show_text(bytes.as_slice()),
        Err(refusal) => out.show(&refusal),
    }
    out.answer(&source.faults())
}

/// Adds whether a text was written, what a sink of one failing call (none for 0) then holds, and how many faults
/// there were.
fn written(alloc: Global, greatest: usize, failing: u64, out: &mut Out) -> Result<(), OutOfMemory>
    requires { 0 < greatest }
{
    let mut sink = MemSink::new(alloc, greatest, [failing].to_vec(alloc)?);
    out.show(&put(&mut sink, b"cost 1\nlength 1\n"));
    out.show_text(sink.bytes());
    out.answer(&sink.faults())
}

/// Lets each act pass a gate that does nothing.
fn pass() -> Result<(), OutOfMemory> {
    for kind in [Kind3::Expand, Kind3::Take, Kind3::Start] {
        NoGate.pass(Agent::first(), kind);
    }
    Ok(())
}

/// Adds what a call of sources, sinks and gates answers.
pub(crate) fn answer_outside(
    alloc: Global,
    call: Call<'_>,
    out: &mut Out,
) -> Result<(), OutOfMemory> {
    let rest = call.rest;
    let greatest = (short(rest, 0) as usize).max(1);
    match call.word {
        "fetch" => fetched(alloc, greatest, rest, out),
        "put" => written(alloc, greatest, long(rest, 1), out),
        "pass" => pass(),
        _ => out.answer_not_read(),
    }
}
