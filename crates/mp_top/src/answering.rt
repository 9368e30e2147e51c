//! What each request is answered with, whoever finds.

ghost use Rattle.std.specs.Prelude.{◌≡◌, ℕ, List, Some, map, string_bytes, IfOk, IfErr};
ghost use Rattle.mp_files.specs.Cause.{seen_source};
ghost use Rattle.mp_files.specs.Fetched.{names_of};
ghost use Rattle.mp_top.specs.Asked.{KeepsLimits};
ghost use Rattle.mp_top.specs.Call.{Call, seen_acts, seen_sink};
ghost use Rattle.mp_top.specs.Finding.{ComesOfSearch, WhereItMaySearch};
ghost use Rattle.mp_top.specs.Keeps.{Keeps};
ghost use Rattle.mp_top.specs.Printed.{Publishes, TellsRefusal};
ghost use Rattle.mp_top.specs.Report.{IsEmptyReport};
ghost use Rattle.mp_words.specs.Reads.{audit_by, certify_by, check_by, make_by, replay_by, solve_by, wanted_by};
ghost use Rattle.mp_words.specs.Requests.{request_of};
ghost use Rattle.mp_words.specs.Requests.Wanted.{audits, certifies, checks, makes, replays, solves};

use crate::asked::{asked, files_of};
use crate::deciding::{
    decide_audit, decide_certify, decide_check, decide_make, decide_replay, decide_solve, size_of,
};
use crate::decision::{Decision, Search};
use crate::finding::Workers;
use crate::making::made_files;
use crate::refusal::{Refusal, tell_memory, tell_words, tell_write};
use crate::report::Report;
use crate::status::Status;
use mp_files::AgentFiles;
use mp_grounder::GroundRefusal;
use mp_outside::{Sink, Source, put_all};
use mp_solve::Solution;
use mp_typing::CheckedFactor;
use mp_words::{Audit, Certify, Check, Make, Replay, Request, Solve};
use std::alloc::Global;

/// Keeps the decision in the report and writes its text.
fn publish<K: Sink, E: Sink>(
    decision: Decision,
    out: &mut K,
    err: &mut E,
    report: &mut Report,
) -> Status
    ensures { Publishes (seen_sink K.written K.faults out.old out.new) (seen_sink E.written E.faults err.old err.new)
        report.new result decision }
{
    let Decision {
        views,
        log,
        answer,
        before,
        text,
        status,
    } = decision;
    report.views = views;
    report.log = log;
    report.answer = answer;
    if put_all(out, &[before.as_slice(), text.as_slice()]).is_err() {
        tell_write(err);
        return Status::Write;
    }
    status
}

/// Ends a call with what was decided: a decision is kept and written, a refusal told on `err`, with the names of the first
/// files and of the files of the agents.
fn end<K: Sink, E: Sink>(
    decided: Result<Decision, Refusal>,
    first: &[&str],
    files: &[AgentFiles<'_>],
    out: &mut K,
    err: &mut E,
    report: &mut Report,
) -> Status
    ensures outcome { IfOk decided (Publishes (seen_sink K.written K.faults out.old out.new)
        (seen_sink E.written E.faults err.old err.new) report.new result) }
    ensures refusal { IfErr decided (TellsRefusal (map (λ name. name.now) first.now) (map names_of files.now)
        (seen_sink K.written K.faults out.old out.new) (seen_sink E.written E.faults err.old err.new)
        report.old report.new result) }
{
    match decided {
        Ok(decision) => publish(decision, out, err, report),
        Err(refusal) => {
            refusal.tell(first, files, err);
            refusal.status()
        }
    }
}

/// Answers a request for a cheapest plan of a team.
fn answer_solve<
    S: Source,
    K: Sink,
    E: Sink,
    F: Fn(&[CheckedFactor], Search, Workers) -> Result<Solution, GroundRefusal>,
>(
    alloc: Global,
    request: &Solve<'_>,
    find: &F,
    source: &mut S,
    out: &mut K,
    err: &mut E,
    report: &mut Report,
) -> Status
    requires keeps { KeepsLimits (solves (solve_by request.now)) }
    requires callable { (t : _) (s : _) (w : _) → WhereItMaySearch t.now s (F.pre find.now t s w) }
    requires finds { (t : _) (s : _) (w : _) (r : _) → F.post find.now t s w r → ComesOfSearch t.now s w r }
    ensures { (ws : List (List ℕ)) → request_of ws ≡ Some (solves (solve_by request.now)) → Keeps (record {
      words = ws;
      source = seen_source S.held S.faults S.fault_at source.old source.new;
      acts = seen_acts S.acts source.old source.new;
      out = seen_sink K.written K.faults out.old out.new;
      err = seen_sink E.written E.faults err.old err.new;
      before = report.old;
      report = report.new;
      status = result;
    }) }
{
    let Ok(files) = files_of(alloc, request.names.as_slice()) else {
        tell_memory(err);
        return Status::Memory;
    };
    let decided = decide_solve(alloc, source, request, files.as_slice(), find);
    end(decided, &[], files.as_slice(), out, err, report)
}

/// Answers a request for what a team does by a schedule.
fn answer_replay<S: Source, K: Sink, E: Sink>(
    alloc: Global,
    request: &Replay<'_>,
    source: &mut S,
    out: &mut K,
    err: &mut E,
    report: &mut Report,
) -> Status
    requires { KeepsLimits (replays (replay_by request.now)) }
    ensures { (ws : List (List ℕ)) → request_of ws ≡ Some (replays (replay_by request.now)) → Keeps (record {
      words = ws;
      source = seen_source S.held S.faults S.fault_at source.old source.new;
      acts = seen_acts S.acts source.old source.new;
      out = seen_sink K.written K.faults out.old out.new;
      err = seen_sink E.written E.faults err.old err.new;
      before = report.old;
      report = report.new;
      status = result;
    }) }
{
    let Ok(files) = files_of(alloc, request.names.as_slice()) else {
        tell_memory(err);
        return Status::Memory;
    };
    let decided = decide_replay(alloc, source, request, files.as_slice());
    end(
        decided,
        &[request.schedule],
        files.as_slice(),
        out,
        err,
        report,
    )
}

/// Answers a request for what is found of a plan.
fn answer_check<S: Source, K: Sink, E: Sink>(
    alloc: Global,
    request: &Check<'_>,
    source: &mut S,
    out: &mut K,
    err: &mut E,
    report: &mut Report,
) -> Status
    requires { KeepsLimits (checks (check_by request.now)) }
    ensures { (ws : List (List ℕ)) → request_of ws ≡ Some (checks (check_by request.now)) → Keeps (record {
      words = ws;
      source = seen_source S.held S.faults S.fault_at source.old source.new;
      acts = seen_acts S.acts source.old source.new;
      out = seen_sink K.written K.faults out.old out.new;
      err = seen_sink E.written E.faults err.old err.new;
      before = report.old;
      report = report.new;
      status = result;
    }) }
{
    let Ok(files) = files_of(alloc, request.names.as_slice()) else {
        tell_memory(err);
        return Status::Memory;
    };
    let decided = decide_check(alloc, source, request, files.as_slice());
    end(decided, &[request.plan], files.as_slice(), out, err, report)
}

/// Answers a request for what certifies the answer of a team.
fn answer_certify<S: Source, K: Sink, E: Sink>(
    alloc: Global,
    request: &Certify<'_>,
    source: &mut S,
    out: &mut K,
    err: &mut E,
    report: &mut Report,
) -> Status
    requires { KeepsLimits (certifies (certify_by request.now)) }
    ensures { (ws : List (List ℕ)) → request_of ws ≡ Some (certifies (certify_by request.now)) → Keeps (record {
      words = ws;
      source = seen_source S.held S.faults S.fault_at source.old source.new;
      acts = seen_acts S.acts source.old source.new;
      out = seen_sink K.written K.faults out.old out.new;
      err = seen_sink E.written E.faults err.old err.new;
      before = report.old;
      report = report.new;
      status = result;
    }) }
{
    let Ok(files) = files_of(alloc, request.names.as_slice()) else {
        tell_memory(err);
        return Status::Memory;
    };
    let decided = decide_certify(alloc, source, request, files.as_slice());
    end(decided, &[], files.as_slice(), out, err, report)
}

/// Answers a request for what an audit of a certificate and a plan finds.
fn answer_audit<S: Source, K: Sink, E: Sink>(
    alloc: Global,
    request: &Audit<'_>,
    source: &mut S,
    out: &mut K,
    err: &mut E,
    report: &mut Report,
) -> Status
    requires { KeepsLimits (audits (audit_by request.now)) }
    ensures { (ws : List (List ℕ)) → request_of ws ≡ Some (audits (audit_by request.now)) → Keeps (record {
      words = ws;
      source = seen_source S.held S.faults S.fault_at source.old source.new;
      acts = seen_acts S.acts source.old source.new;
      out = seen_sink K.written K.faults out.old out.new;
      err = seen_sink E.written E.faults err.old err.new;
      before = report.old;
      report = report.new;
      status = result;
    }) }
{
    let Ok(files) = files_of(alloc, request.names.as_slice()) else {
        tell_memory(err);
        return Status::Memory;
    };
    let decided = decide_audit(alloc, source, request, files.as_slice());
    end(
        decided,
        &[request.certificate, request.plan],
        files.as_slice(),
        out,
        err,
        report,
    )
}

/// Answers a request for a team that is made. Nothing is read.
fn answer_make<
    S: Source,
    K: Sink,
    E: Sink,
    F: Fn(&[CheckedFactor], Search, Workers) -> Result<Solution, GroundRefusal>,
>(
    alloc: Global,
    request: Make,
    find: &F,
    source: &mut S,
    out: &mut K,
    err: &mut E,
    report: &mut Report,
) -> Status
    requires keeps { KeepsLimits (makes (make_by request)) }
    requires callable { (t : _) (s : _) (w : _) → WhereItMaySearch t.now s (F.pre find.now t s w) }
    requires finds { (t : _) (s : _) (w : _) (r : _) → F.post find.now t s w r → ComesOfSearch t.now s w r }
    ensures { (ws : List (List ℕ)) → request_of ws ≡ Some (makes (make_by request)) → Keeps (record {
      words = ws;
      source = seen_source S.held S.faults S.fault_at source.old source.new;
      acts = seen_acts S.acts source.old source.new;
      out = seen_sink K.written K.faults out.old out.new;
      err = seen_sink E.written E.faults err.old err.new;
      before = report.old;
      report = report.new;
      status = result;
    }) }
{
    let _ = &source;
    let Ok(files) = made_files(alloc, size_of(request)) else {
        tell_memory(err);
        return Status::Memory;
    };
    let decided = decide_make(alloc, request, find);
    end(decided, &[], files.as_slice(), out, err, report)
}

/// Answers a request: the outcome on `out` and in the report, or the line of a refusal on `err`.
fn answer_request<
    S: Source,
    K: Sink,
    E: Sink,
    F: Fn(&[CheckedFactor], Search, Workers) -> Result<Solution, GroundRefusal>,
>(
    alloc: Global,
    request: &Request<'_>,
    find: &F,
    source: &mut S,
    out: &mut K,
    err: &mut E,
    report: &mut Report,
) -> Status
    requires keeps { KeepsLimits (wanted_by request.now) }
    requires callable { (t : _) (s : _) (w : _) → WhereItMaySearch t.now s (F.pre find.now t s w) }
    requires finds { (t : _) (s : _) (w : _) (r : _) → F.post find.now t s w r → ComesOfSearch t.now s w r }
    ensures { (ws : List (List ℕ)) → request_of ws ≡ Some (wanted_by request.now) → Keeps (record {
      words = ws;
      source = seen_source S.held S.faults S.fault_at source.old source.new;
      acts = seen_acts S.acts source.old source.new;
      out = seen_sink K.written K.faults out.old out.new;
      err = seen_sink E.written E.faults err.old err.new;
      before = report.old;
      report = report.new;
      status = result;
    }) }
{
    match request {
        Request::Solve(solve) => answer_solve(alloc, solve, find, source, out, err, report),
        Request::Replay(replay) => answer_replay(alloc, replay, source, out, err, report),
        Request::Check(check) => answer_check(alloc, check, source, out, err, report),
        Request::Certify(certify) => answer_certify(alloc, certify, source, out, err, report),
        Request::Audit(audit) => answer_audit(alloc, audit, source, out, err, report),
        Request::Make(make) => answer_make(alloc, *make, find, source, out, err, report),
    }
}

/// Does all that the program does for the words of a command line, and what is found for a request is found by `find`:
/// reads the files of a team or makes it, lets its agents search or do the events of a schedule, or checks a plan or a
/// certificate, keeps what was found in the report and prints it, or tells `err` in one line why not.
///
/// The text is made as a whole before the first write, and the writing takes no memory.
pub(crate) fn answer<
    S: Source,
    K: Sink,
    E: Sink,
    F: Fn(&[CheckedFactor], Search, Workers) -> Result<Solution, GroundRefusal>,
>(
    alloc: Global,
    words: &[String],
    find: &F,
    source: &mut S,
    out: &mut K,
    err: &mut E,
    report: &mut Report,
) -> Status
    requires empty { IsEmptyReport report.old }
    requires callable { (t : _) (s : _) (w : _) → WhereItMaySearch t.now s (F.pre find.now t s w) }
    requires finds { (t : _) (s : _) (w : _) (r : _) → F.post find.now t s w r → ComesOfSearch t.now s w r }
    ensures { Keeps (record {
      words = map string_bytes words.now;
      source = seen_source S.held S.faults S.fault_at source.old source.new;
      acts = seen_acts S.acts source.old source.new;
      out = seen_sink K.written K.faults out.old out.new;
      err = seen_sink E.written E.faults err.old err.new;
      before = report.old;
      report = report.new;
      status = result;
    }) }
{
    match asked(alloc, words) {
        Ok(Some(request)) => answer_request(alloc, &request, find, source, out, err, report),
        Ok(None) => {
            tell_words(err);
            Status::Words
        }
        Err(_) => {
            tell_memory(err);
            Status::Memory
        }
    }
}
