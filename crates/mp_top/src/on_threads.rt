//! The top call, which may start threads.

ghost use Rattle.std.specs.Prelude.{◌≤◌, length, map, string_bytes};
ghost use Rattle.mp_files.specs.Cause.{seen_source};
ghost use Rattle.mp_top.specs.Call.{Call, seen_acts, seen_sink};
ghost use Rattle.mp_top.specs.Finding.{ComesOfSearch};
ghost use Rattle.mp_top.specs.Keeps.{Keeps};
ghost use Rattle.mp_top.specs.Report.{IsEmptyReport};
ghost use Rattle.mp_world.specs.Team.{most_expansions};

use crate::answering::answer;
use crate::by_workers::by_workers;
use crate::decision::Search;
use crate::finding::Workers;
use crate::on_one_thread::run_alone;
use crate::report::Report;
use crate::status::Status;
use mp_grounder::GroundRefusal;
use mp_outside::{Gate, Sink, Source};
use mp_solve::Solution;
use mp_typing::CheckedFactor;
use mp_words::alone;
use std::alloc::Global;
use std::sync::Wait;
use std::thread::Threads;

/// Does all that the program does for the words of a command line, the program's name left out. The report is
/// empty at entry. Where it returns, it has done what `run_alone` promises. A request that does not ask for one
/// thread alone is served by workers, the calling thread among them, and each of its agents passes the gate
/// before each of its acts; for words for which `alone` is true no thread is started.
pub fn run<R: Threads + Wait + Sync, S: Source, K: Sink, E: Sink, G: Gate + Sync>(
    rt: &R,
    alloc: Global,
    words: &[String],
    source: &mut S,
    out: &mut K,
    err: &mut E,
    gate: &G,
    report: &mut Report,
) -> Status
    requires { IsEmptyReport report.old }
    ensures { Keeps (record {
      words = map string_bytes words.now;
      source = seen_source S.held S.faults S.fault_at source.old source.new;
      acts = seen_acts S.acts source.old source.new;
      out = seen_sink K.written K.faults out.old out.new;
      err = seen_sink E.written E.faults err.old err.new;
      before = report.old;
      report = report.new;
      status = result;
    }) }
{
    if alone(words) {
        return run_alone(alloc, words, source, out, err, report);
    }
    answer(
        alloc,
        words,
        &|team: &[CheckedFactor], search: Search, workers: Workers| -> Result<
            Solution,
            GroundRefusal,
        >
            requires { (1 ≤ search.limit) × (search.limit ≤ most_expansions) × (1 ≤ length team.now) × (length team.now ≤ 16) }
            ensures { ComesOfSearch team.entry.now search workers result }
        { by_workers(rt, gate, alloc, team, search, workers) },
        source,
        out,
        err,
        report,
    )
}
