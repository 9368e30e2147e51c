//! A call of the program over files and sinks in memory.

use crate::texts::{add_files, named};
use mp_list::{List, OutOfMemory};
use mp_outside::{MemSink, MemSource, NamedText};
use mp_top::{Report, alone, run_alone};
use std::alloc::Global;

/// A source or a sink: the most bytes that it moves at a call, and the call that fails, counted from 1, or 0 for none.
#[derive(Clone, Copy, Debug)]
pub(crate) struct Device {
    pub(crate) piece: usize,
    pub(crate) failing: u64,
}

/// The source, the output and the error stream of a call.
#[derive(Clone, Copy, Debug)]
pub(crate) struct Devices {
    pub(crate) source: Device,
    pub(crate) out: Device,
    pub(crate) err: Device,
}

/// A device that moves much at a call and does not fail.
const WIDE: Device = Device {
    piece: 65_536,
    failing: 0,
};

/// Devices that move much at a call and do not fail.
pub(crate) const WIDE_DEVICES: Devices = Devices {
    source: WIDE,
    out: WIDE,
    err: WIDE,
};

/// What a call of the program leaves behind.
#[derive(Drop)]
pub(crate) struct Answer {
    /// The status: none where the words ask for more than one thread, and nothing was called.
    pub(crate) code: Option<u8>,
    pub(crate) out: Vec<u8>,
    pub(crate) err: Vec<u8>,
    /// A call of the source or a sink failed.
    pub(crate) failed: bool,
}

/// The files and words of a call.
#[derive(Clone, Copy)]
pub(crate) struct Asked<'a> {
    pub(crate) texts: &'a [NamedText],
    pub(crate) words: &'a [String],
}

/// A sink.
fn sink(alloc: Global, device: Device) -> Result<MemSink, OutOfMemory> {
    let failing = [device.failing].to_vec(alloc)?;
    Ok(MemSink::new(alloc, device.piece.max(1), failing))
}

/// A source.
fn source(alloc: Global, files: List<NamedText>, device: Device) -> Result<MemSource, OutOfMemory> {
    let failing = [device.failing].to_vec(alloc)?;
    Ok(MemSource::new(files, device.piece.max(1), failing))
}

/// Calls the program: its status.
fn code_of(
    alloc: Global,
    words: &[String],
    source: &mut MemSource,
    out: &mut MemSink,
    err: &mut MemSink,
) -> Option<u8> {
    if !alone(words) {
        return None;
    }
    let mut report = Report::new(alloc);
    let status = run_alone(alloc, words, source, out, err, &mut report);
    Some(status.code())
}

/// What is left behind by the program's call over these files.
fn answer_over(
    alloc: Global,
    words: &[String],
    files: List<NamedText>,
    devices: Devices,
) -> Result<Answer, OutOfMemory> {
    let mut source = source(alloc, files, devices.source)?;
    let mut out = sink(alloc, devices.out)?;
    let mut err = sink(alloc, devices.err)?;
    let code = code_of(alloc, words, &mut source, &mut out, &mut err);
    Ok(Answer {
        code,
        out: out.bytes().to_vec(alloc)?,
        err: err.bytes().to_vec(alloc)?,
        failed: source.faults() > 0 || out.faults() > 0 || err.faults() > 0,
    })
}

/// What a call leaves behind.
pub(crate) fn answer_of(
    alloc: Global,
    asked: Asked<'_>,
    devices: Devices,
) -> Result<Answer, OutOfMemory> {
    let mut files = List::new(alloc);
    add_files(alloc, asked.texts, asked.words, &mut files)?;
    answer_over(alloc, asked.words, files, devices)
}

/// What a call leaves behind where one file has another text.
pub(crate) fn answer_with(
    alloc: Global,
    asked: Asked<'_>,
    name: &str,
    text: &[u8],
) -> Result<Answer, OutOfMemory> {
    let mut files = List::new(alloc);
    files.push(named(alloc, name, text)?)?;
    add_files(alloc, asked.texts, asked.words, &mut files)?;
    answer_over(alloc, asked.words, files, WIDE_DEVICES)
}
