//! `maplan`: the cheapest joint plan of a team of agents, over real files and streams.
#![tactic(auto)]

use mp_outside::{FileSource, NoGate, StreamSink};
use mp_top::{Report, command_line, run, without_words};
use std::alloc::AllocGlobal;
use std::process::ExitCode;

fn main(rt: HostRuntime) -> ExitCode {
    let alloc = rt.alloc();
    let mut out = StreamSink::new(rt.stdout());
    let mut err = StreamSink::new(rt.stderr());
    let Some(words) = command_line(&rt) else {
        return ExitCode::from(without_words(&mut err).code());
    };
    let mut source = FileSource::new(&rt);
    let mut report = Report::new(alloc);
    let status = run(
        &rt,
        alloc,
        words.as_slice(),
        &mut source,
        &mut out,
        &mut err,
        &NoGate,
        &mut report,
    );
    ExitCode::from(status.code())
}
