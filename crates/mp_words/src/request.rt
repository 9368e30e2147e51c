//! The words of the command line, read from the left.

ghost use Rattle.std.specs.Prelude.{◌≡◌, IfOk, MatchOption, map, string_bytes, Some, None};
ghost use Rattle.mp_words.specs.Asked.{nothing};
ghost use Rattle.mp_words.specs.Reads.{asked_by, audit_by, certify_by, check_by, make_by, replay_by, solve_by, wanted_by};
ghost use Rattle.mp_words.specs.Requests.{audit_of, certify_of, check_of, command_of, has_no_search, has_no_work, is_team_size, make_of, replay_of, request_of, searching, solve_of, working};
ghost use Rattle.mp_words.specs.Words.{after_words};

use crate::asked::{Audit, Certify, Check, Choice, Make, Replay, Request, Solve};
use crate::numbers::number_between;
use crate::read::Read;
use std::alloc::{AllocError, Global};

/// How many entries an agent may expand where the words do not say so.
const LIMIT: u64 = 200_000;

/// Whether so many files are those of 1 to 16 agents, two of each.
fn is_team(count: usize) -> bool
    ensures { result ≡ is_team_size count }
{
    count >= 2 && count <= 32 && count % 2 == 0
}

/// Whether no option was given that says who searches.
fn has_no_workers(read: &Read<'_>) -> bool
    ensures { result ≡ has_no_work (asked_by read.now) }
{
    !(read.one || read.workers.is_some())
}

/// Whether no option was given that says how agents search.
fn has_no_options(read: &Read<'_>) -> bool
    ensures { result ≡ has_no_search (asked_by read.now) }
{
    !(read.limit.is_some() || read.heuristic.is_some())
}

/// What `solve` asks for with this.
fn solve_in(read: Read<'_>) -> Option<Request<'_>>
    ensures { MatchOption result (solve_of (asked_by read.entry) ≡ None)
        (λ r. solve_of (asked_by read.entry) ≡ Some (wanted_by r)) }
{
    if read.awaited.is_some() || read.show || !is_team(read.plain.len()) {
        return None;
    }
    Some(Request::Solve(Solve {
        heuristic: read.heuristic.unwrap_or(Choice::Max),
        limit: read.limit.unwrap_or(LIMIT),
        workers: read.workers,
        one: read.one,
        trace: read.trace,
        names: read.plain,
    }))
}

/// What `replay` asks for with this.
fn replay_in(mut read: Read<'_>) -> Option<Request<'_>>
    ensures { MatchOption result (replay_of (asked_by read.entry) ≡ None)
        (λ r. replay_of (asked_by read.entry) ≡ Some (wanted_by r)) }
{
    if read.awaited.is_some() || !has_no_workers(&read) || read.trace || read.show {
        return None;
    }
    if read.plain.is_empty() || !is_team(read.plain.len() - 1) {
        return None;
    }
    let schedule = read.plain.remove(0);
    Some(Request::Replay(Replay {
        heuristic: read.heuristic.unwrap_or(Choice::Max),
        limit: read.limit.unwrap_or(LIMIT),
        schedule,
        names: read.plain,
    }))
}

/// What `check` asks for with this, or `steps`.
fn check_in(steps: bool, mut read: Read<'_>) -> Option<Request<'_>>
    ensures { MatchOption result (check_of steps (asked_by read.entry) ≡ None)
        (λ r. check_of steps (asked_by read.entry) ≡ Some (wanted_by r)) }
{
    if read.awaited.is_some() || !has_no_options(&read) || !has_no_workers(&read) {
        return None;
    }
    if read.trace || read.show || read.plain.is_empty() || !is_team(read.plain.len() - 1) {
        return None;
    }
    let plan = read.plain.remove(0);
    Some(Request::Check(Check {
        steps,
        plan,
        names: read.plain,
    }))
}

/// What `certify` asks for with this.
fn certify_in(read: Read<'_>) -> Option<Request<'_>>
    ensures { MatchOption result (certify_of (asked_by read.entry) ≡ None)
        (λ r. certify_of (asked_by read.entry) ≡ Some (wanted_by r)) }
{
    if read.awaited.is_some() || read.heuristic.is_some() || !has_no_workers(&read) {
        return None;
    }
    if read.trace || read.show || !is_team(read.plain.len()) {
        return None;
    }
    Some(Request::Certify(Certify {
        limit: read.limit.unwrap_or(LIMIT),
        names: read.plain,
    }))
}

/// What `audit` asks for with this.
fn audit_in(mut read: Read<'_>) -> Option<Request<'_>>
    ensures { MatchOption result (audit_of (asked_by read.entry) ≡ None)
        (λ r. audit_of (asked_by read.entry) ≡ Some (wanted_by r)) }
{
    if read.awaited.is_some() || !has_no_options(&read) || !has_no_workers(&read) {
        return None;
    }
    if read.trace || read.show || read.plain.len() < 2 || !is_team(read.plain.len() - 2) {
        return None;
    }
    let certificate = read.plain.remove(0);
    let plan = read.plain.remove(0);
    Some(Request::Audit(Audit {
        certificate,
        plan,
        names: read.plain,
    }))
}

/// What `make` asks for with this.
fn make_in(read: Read<'_>) -> Option<Request<'_>>
    ensures { MatchOption result (make_of (asked_by read.entry) ≡ None)
        (λ r. make_of (asked_by read.entry) ≡ Some (wanted_by r)) }
{
    if read.awaited.is_some() || read.trace {
        return None;
    }
    let [family, size, number] = read.plain.as_slice() else {
        return None;
    };
    if *family != "delivery" {
        return None;
    }
    let size = number_between(1, 8, size.as_bytes())?;
    let number = number_between(0, 999_999, number.as_bytes())?;
    Some(Request::Make(Make {
        heuristic: read.heuristic.unwrap_or(Choice::Max),
        limit: read.limit.unwrap_or(LIMIT),
        workers: read.workers,
        one: read.one,
        show: read.show,
        size,
        number,
    }))
}

/// What a command asks for with this.
fn command_in<'a>(command: &str, read: Read<'a>) -> Option<Request<'a>>
    ensures { MatchOption result (command_of command.now (asked_by read.entry) ≡ None)
        (λ r. command_of command.now (asked_by read.entry) ≡ Some (wanted_by r)) }
{
    if command == "solve" {
        return solve_in(read);
    }
    if command == "replay" {
        return replay_in(read);
    }
    if command == "check" {
        return check_in(false, read);
    }
    if command == "steps" {
        return check_in(true, read);
    }
    if command == "certify" {
        return certify_in(read);
    }
    if command == "audit" {
        return audit_in(read);
    }
    if command == "make" {
        return make_in(read);
    }
    None
}

/// Reads the words behind the command.
fn read_words(alloc: Global, words: &[String]) -> Result<Option<Read<'_>>, AllocError>
    ensures { IfOk result (λ r. MatchOption r
        (after_words nothing (map string_bytes words.now) ≡ None)
        (λ r. after_words nothing (map string_bytes words.now) ≡ Some (asked_by r))) }
{
    let mut read = Read::new(alloc);
    for word in words {
        if !read.read(word.as_str())? {
            return Ok(None);
        }
    }
    Ok(Some(read))
}

/// What the words ask for: none exactly where they are not accepted. Refuses only for want of memory.
pub fn read_request(alloc: Global, words: &[String]) -> Result<Option<Request<'_>>, AllocError>
    ensures { IfOk result (λ r. MatchOption r
        (request_of (map string_bytes words.now) ≡ None)
        (λ r. request_of (map string_bytes words.now) ≡ Some (wanted_by r))) }
{
    let Some(command) = words.first() else {
        return Ok(None);
    };
    match read_words(alloc, &words[1..])? {
        Some(read) => Ok(command_in(command.as_str(), read)),
        None => Ok(None),
    }
}
