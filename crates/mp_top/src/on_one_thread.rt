//! The whole of the program on one thread.

ghost use Rattle.std.specs.Prelude.{◌≡◌, ◌≤◌, length, true, map, string_bytes};
ghost use Rattle.mp_files.specs.Cause.{seen_source};
ghost use Rattle.mp_top.specs.Call.{Call, seen_acts, seen_sink};
ghost use Rattle.mp_top.specs.Finding.{ComesOfSearch};
ghost use Rattle.mp_top.specs.Keeps.{Keeps};
ghost use Rattle.mp_top.specs.Report.{IsEmptyReport};
ghost use Rattle.mp_words.specs.Requests.{is_alone};
ghost use Rattle.mp_world.specs.Team.{most_expansions};

use crate::answering::answer;
use crate::decision::Search;
use crate::finding::{Workers, in_turn};
use crate::report::Report;
use crate::status::Status;
use mp_grounder::GroundRefusal;
use mp_outside::{Sink, Source};
use mp_solve::Solution;
use mp_typing::CheckedFactor;
use std::alloc::Global;

/// Does all that the program does for words that need no second thread: reads the files of a team or makes it, lets
/// its agents search or do the events of a schedule, or checks a plan or a certificate, keeps what was found in the report and prints it, or
/// tells `err` in one line why not. It always returns.
///
/// The text is made as a whole before the first write, and the writing takes no memory.
pub fn run_alone<S: Source, K: Sink, E: Sink>(
    alloc: Global,
    words: &[String],
    source: &mut S,
    out: &mut K,
    err: &mut E,
    report: &mut Report,
) -> Status
    requires alone { is_alone (map string_bytes words.now) ≡ true }
    requires empty { IsEmptyReport report.old }
    ensures { Keeps (record {
      words = map string_bytes words.now;
      source = seen_source S.held S.faults S.fault_at source.old source.new;
      acts = seen_acts S.acts source.old source.new;
      out = seen_sink K.written K.faults out.old out.new;
      err = seen_sink E.written E.faults err.old err.new;
      before = report.old;
      report = report.new;
      status = result;
    }) }
{
    answer(
        alloc,
        words,
        &|team: &[CheckedFactor], search: Search, workers: Workers| -> Result<
            Solution,
            GroundRefusal,
        >
            requires { (1 ≤ search.limit) × (search.limit ≤ most_expansions) × (1 ≤ length team.now) × (length team.now ≤ 16) }
            ensures { ComesOfSearch team.entry.now search workers result }
        { in_turn(alloc, team, search, workers) },
        source,
        out,
        err,
        report,
    )
}
