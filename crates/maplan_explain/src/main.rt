//! `maplan_explain`: what `maplan` is asked, which words and files it refuses, and what a run did, over real files and streams.
#![tactic(auto)]

use mp_explain::{Ending, explain};
use mp_outside::{FileSource, StreamSink};
use mp_top::command_line;
use std::alloc::AllocGlobal;
use std::process::ExitCode;

fn main(rt: HostRuntime) -> ExitCode {
    let mut out = StreamSink::new(rt.stdout());
    let mut err = StreamSink::new(rt.stderr());
    let Some(words) = command_line(&rt) else {
        return ExitCode::from(Ending::Memory.code());
    };
    let mut source = FileSource::new(&rt);
    let ending = explain(
        rt.alloc(),
        words.as_slice(),
        &mut source,
        &mut out,
        &mut err,
    );
    ExitCode::from(ending.code())
}
