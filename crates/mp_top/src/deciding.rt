//! What is decided about each request.

ghost use Rattle.std.specs.Prelude.{◌≡◌, ◌<◌, ◌≤◌, map, Option, IfOk, IfErr};
ghost use Rattle.mp_files.specs.Cause.{SeenSource, seen_source};
ghost use Rattle.mp_files.specs.Fetched.{names_of};
ghost use Rattle.mp_outside.specs.Acts.{AreReadInTurn, Does};
ghost use Rattle.mp_outside.specs.Source.{Files as Held};
ghost use Rattle.mp_top.specs.Asked.{KeepsLimits, agents_of, files_asked, team_request};
ghost use Rattle.mp_top.specs.Cause.{Rests};
ghost use Rattle.mp_top.specs.Decided.{Decides};
ghost use Rattle.mp_top.specs.Finding.{ComesOfSearch, WhereItMaySearch};
ghost use Rattle.mp_top.specs.Refusal.{status_of};
ghost use Rattle.mp_words.specs.Reads.{audit_by, certify_by, check_by, make_by, replay_by as replay_asked, solve_by};
ghost use Rattle.mp_words.specs.Requests.Wanted.{audits, certifies, checks, makes, replays, solves};

use crate::checking::check_for;
use crate::decision::{Decision, Search};
use crate::finding::Workers;
use crate::first_file::{LONGEST_CERTIFICATE, LONGEST_PLAN, LONGEST_SCHEDULE, first_text};
use crate::making::{made_team, make_for};
use crate::optimality::{audit_for, certify_for};
use crate::refusal::Refusal;
use crate::searching::{replay_by, solve_for};
use crate::status::Status;
use mp_files::{AgentFiles, read_team};
use mp_grounder::GroundRefusal;
use mp_maker::delivery;
use mp_outside::Source;
use mp_solve::Solution;
use mp_typing::CheckedFactor;
use mp_words::{Audit, Certify, Check, Make, Replay, Solve};
use std::alloc::Global;

/// A cheapest plan for the agents with these files.
pub(crate) fn decide_solve<
    S: Source,
    F: Fn(&[CheckedFactor], Search, Workers) -> Result<Solution, GroundRefusal>,
>(
    alloc: Global,
    source: &mut S,
    request: &Solve<'_>,
    files: &[AgentFiles<'_>],
    find: &F,
) -> Result<Decision, Refusal>
    requires keeps { KeepsLimits (solves (solve_by request.now)) }
    requires names { map names_of files.now ≡ agents_of (solve_by request.now).names }
    requires callable { (t : _) (s : _) (w : _) → WhereItMaySearch t.now s (F.pre find.now t s w) }
    requires finds { (t : _) (s : _) (w : _) (r : _) → F.post find.now t s w r → ComesOfSearch t.now s w r }
    ensures outcome { IfOk result (Decides (S.held source.old) (solves (solve_by request.now))) }
    ensures cause { IfErr result (Rests (seen_source S.held S.faults S.fault_at source.old source.new)
        (team_request (solves (solve_by request.now)))) }
    ensures no_fault { IfOk result (λ _. S.faults source.new ≡ S.faults source.old) }
    ensures fault { IfErr result (λ r. S.faults source.old < S.faults source.new → status_of r ≡ Status.Read) }
    ensures acts { Does (AreReadInTurn (files_asked (team_request (solves (solve_by request.now)))))
        (S.acts source.old) (S.acts source.new) }
{
    let team = match read_team(alloc, source, files) {
        Ok(team) => team,
        Err(refusal) => return Err(Refusal::Files(refusal)),
    };
    let search = Search {
        heuristic: request.heuristic,
        limit: request.limit,
    };
    let workers = Workers {
        count: request.workers,
        one: request.one,
    };
    match solve_for(alloc, team.as_slice(), find, search, workers, request.trace) {
        Ok(decision) => Ok(decision),
        Err(refusal) => Err(Refusal::Sizes(refusal)),
    }
}

/// What the agents with these files do by a schedule, whose file is fetched first.
pub(crate) fn decide_replay<S: Source>(
    alloc: Global,
    source: &mut S,
    request: &Replay<'_>,
    files: &[AgentFiles<'_>],
) -> Result<Decision, Refusal>
    requires keeps { KeepsLimits (replays (replay_asked request.now)) }
    requires names { map names_of files.now ≡ agents_of (replay_asked request.now).names }
    ensures outcome { IfOk result (Decides (S.held source.old) (replays (replay_asked request.now))) }
    ensures cause { IfErr result (Rests (seen_source S.held S.faults S.fault_at source.old source.new)
        (team_request (replays (replay_asked request.now)))) }
    ensures no_fault { IfOk result (λ _. S.faults source.new ≡ S.faults source.old) }
    ensures fault { IfErr result (λ r. S.faults source.old < S.faults source.new → status_of r ≡ Status.Read) }
    ensures acts { Does (AreReadInTurn (files_asked (team_request (replays (replay_asked request.now)))))
        (S.acts source.old) (S.acts source.new) }
{
    let text = first_text(alloc, source, request.schedule, LONGEST_SCHEDULE, 0)?;
    let team = match read_team(alloc, source, files) {
        Ok(team) => team,
        Err(refusal) => return Err(Refusal::Files(refusal)),
    };
    let search = Search {
        heuristic: request.heuristic,
        limit: request.limit,
    };
    replay_by(alloc, team.as_slice(), search, text)
}

/// What is found of a plan, whose file is fetched first, for the agents with these files.
pub(crate) fn decide_check<S: Source>(
    alloc: Global,
    source: &mut S,
    request: &Check<'_>,
    files: &[AgentFiles<'_>],
) -> Result<Decision, Refusal>
    requires keeps { KeepsLimits (checks (check_by request.now)) }
    requires names { map names_of files.now ≡ agents_of (check_by request.now).names }
    ensures outcome { IfOk result (Decides (S.held source.old) (checks (check_by request.now))) }
    ensures cause { IfErr result (Rests (seen_source S.held S.faults S.fault_at source.old source.new)
        (team_request (checks (check_by request.now)))) }
    ensures no_fault { IfOk result (λ _. S.faults source.new ≡ S.faults source.old) }
    ensures fault { IfErr result (λ r. S.faults source.old < S.faults source.new → status_of r ≡ Status.Read) }
    ensures acts { Does (AreReadInTurn (files_asked (team_request (checks (check_by request.now)))))
        (S.acts source.old) (S.acts source.new) }
{
    let text = first_text(alloc, source, request.plan, LONGEST_PLAN, 0)?;
    let team = match read_team(alloc, source, files) {
        Ok(team) => team,
        Err(refusal) => return Err(Refusal::Files(refusal)),
    };
    check_for(alloc, team.as_slice(), text.as_slice(), request.steps)
}

/// What certifies the answer of the agents with these files.
pub(crate) fn decide_certify<S: Source>(
    alloc: Global,
    source: &mut S,
    request: &Certify<'_>,
    files: &[AgentFiles<'_>],
) -> Result<Decision, Refusal>
    requires keeps { KeepsLimits (certifies (certify_by request.now)) }
    requires names { map names_of files.now ≡ agents_of (certify_by request.now).names }
    ensures outcome { IfOk result (Decides (S.held source.old) (certifies (certify_by request.now))) }
    ensures cause { IfErr result (Rests (seen_source S.held S.faults S.fault_at source.old source.new)
        (team_request (certifies (certify_by request.now)))) }
    ensures no_fault { IfOk result (λ _. S.faults source.new ≡ S.faults source.old) }
    ensures fault { IfErr result (λ r. S.faults source.old < S.faults source.new → status_of r ≡ Status.Read) }
    ensures acts { Does (AreReadInTurn (files_asked (team_request (certifies (certify_by request.now)))))
        (S.acts source.old) (S.acts source.new) }
{
    let team = match read_team(alloc, source, files) {
        Ok(team) => team,
        Err(refusal) => return Err(Refusal::Files(refusal)),
    };
    match certify_for(alloc, team.as_slice(), request.limit) {
        Ok(decision) => Ok(decision),
        Err(refusal) => Err(Refusal::Sizes(refusal)),
    }
}

/// What an audit of a certificate and a plan finds, whose files are fetched first, for the agents with these files.
pub(crate) fn decide_audit<S: Source>(
    alloc: Global,
    source: &mut S,
    request: &Audit<'_>,
    files: &[AgentFiles<'_>],
) -> Result<Decision, Refusal>
    requires keeps { KeepsLimits (audits (audit_by request.now)) }
    requires names { map names_of files.now ≡ agents_of (audit_by request.now).names }
    ensures outcome { IfOk result (Decides (S.held source.old) (audits (audit_by request.now))) }
    ensures cause { IfErr result (Rests (seen_source S.held S.faults S.fault_at source.old source.new)
        (team_request (audits (audit_by request.now)))) }
    ensures no_fault { IfOk result (λ _. S.faults source.new ≡ S.faults source.old) }
    ensures fault { IfErr result (λ r. S.faults source.old < S.faults source.new → status_of r ≡ Status.Read) }
    ensures acts { Does (AreReadInTurn (files_asked (team_request (audits (audit_by request.now)))))
        (S.acts source.old) (S.acts source.new) }
{
    let certificate = first_text(alloc, source, request.certificate, LONGEST_CERTIFICATE, 0)?;
    let plan = first_text(alloc, source, request.plan, LONGEST_PLAN, 1)?;
    let team = match read_team(alloc, source, files) {
        Ok(team) => team,
        Err(refusal) => return Err(Refusal::Files(refusal)),
    };
    audit_for(
        alloc,
        team.as_slice(),
        certificate.as_slice(),
        plan.as_slice(),
    )
}

/// The size of a team that is made.
pub(crate) fn size_of(request: Make) -> u16
    requires { request.size ≤ 8 }
    ensures { result ≡ request.size }
{
    request.size as u16
}

/// The number of a team that is made.
fn number_of(request: Make) -> u32
    requires { request.number ≤ 999999 }
    ensures { result ≡ request.number }
{
    request.number as u32
}

/// Who searches for a plan of a team that is made.
fn workers_of_make(make: Make) -> Workers
    ensures { result.one ≡ make.one }
{
    Workers {
        count: make.workers,
        one: make.one,
    }
}

/// A summary of a cheapest plan for a team that is made.
pub(crate) fn decide_make<
    F: Fn(&[CheckedFactor], Search, Workers) -> Result<Solution, GroundRefusal>,
>(alloc: Global, request: Make, find: &F) -> Result<Decision, Refusal>
    requires keeps { KeepsLimits (makes (make_by request)) }
    requires callable { (t : _) (s : _) (w : _) → WhereItMaySearch t.now s (F.pre find.now t s w) }
    requires finds { (t : _) (s : _) (w : _) (r : _) → F.post find.now t s w r → ComesOfSearch t.now s w r }
    ensures outcome { (held : Option Held) → IfOk result (Decides held (makes (make_by request))) }
    ensures cause { (source : SeenSource) → IfErr result (Rests source (team_request (makes (make_by request)))) }
{
    let size = size_of(request);
    let texts = delivery(alloc, size, number_of(request))?;
    let team = match made_team(alloc, texts.as_slice()) {
        Ok(team) => team,
        Err(refusal) => return Err(Refusal::Files(refusal)),
    };
    let search = Search {
        heuristic: request.heuristic,
        limit: request.limit,
    };
    match make_for(
        alloc,
        team.as_slice(),
        find,
        search,
        workers_of_make(request),
        request.show,
        texts.as_slice(),
        size,
    ) {
        Ok(decision) => Ok(decision),
        Err(refusal) => Err(Refusal::Sizes(refusal)),
    }
}
