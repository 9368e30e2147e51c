//! What accepted words ask for, told.

use mp_words::{Audit, Certify, Check, Choice, Make, Replay, Request, Solve};
use std::alloc::AllocError;

/// The word of a heuristic, and what it is.
fn heuristic_of(choice: Choice) -> &'static str {
    match choice {
        Choice::Blind => "blind (zero everywhere)",
        Choice::Max => "max (the dearest single goal without deletes, hmax)",
        Choice::Cut => "cut (landmark cuts, LM-cut)",
        Choice::Pdb => "pdb (a pattern database of at most twelve facts)",
    }
}

/// Writes how agents search.
fn tell_search(out: &mut String, heuristic: Choice, limit: u64) -> Result<(), AllocError> {
    let heuristic = heuristic_of(heuristic);
    write!(out, "heuristic: {heuristic}\n")?;
    write!(out, "each agent expands at most: {limit} states\n")
}

/// Writes who searches.
fn tell_workers(out: &mut String, workers: Option<u64>, one: bool) -> Result<(), AllocError> {
    if one {
        return out.push_str("threads: one\n");
    }
    match workers {
        Some(workers) => write!(
            out,
            "workers: {workers}, or as many as agents where these are fewer\n"
        ),
        None => out.push_str("workers: one for each agent\n"),
    }
}

/// Writes the files of each agent.
fn tell_files(out: &mut String, names: &[&str]) -> Result<(), AllocError> {
    for (before, files) in names.chunks(2).enumerate() {
        if let [domain, problem] = files {
            let agent = before.saturating_add(1);
            write!(out, "agent {agent}: domain {domain}, problem {problem}\n")?;
        }
    }
    Ok(())
}

/// Writes what `solve` is asked for.
fn tell_solve(out: &mut String, solve: &Solve<'_>) -> Result<(), AllocError> {
    out.push_str("solve: a cheapest joint plan of these agents\n")?;
    tell_search(out, solve.heuristic, solve.limit)?;
    tell_workers(out, solve.workers, solve.one)?;
    if solve.trace {
        out.push_str("each event is printed\n")?;
    }
    tell_files(out, solve.names.as_slice())
}

/// Writes what `replay` is asked for.
fn tell_replay(out: &mut String, replay: &Replay<'_>) -> Result<(), AllocError> {
    let schedule = replay.schedule;
    write!(
        out,
        "replay: the run of these agents by the events of {schedule}\n"
    )?;
    tell_search(out, replay.heuristic, replay.limit)?;
    tell_files(out, replay.names.as_slice())
}

/// Writes what `check` or `steps` is asked for.
fn tell_check(out: &mut String, check: &Check<'_>) -> Result<(), AllocError> {
    let plan = check.plan;
    if check.steps {
        write!(
            out,
            "steps: which actions of the plan {plan} may be done at the same time\n"
        )?;
    } else {
        write!(
            out,
            "check: whether the plan {plan} solves the problem of these agents at its cost\n"
        )?;
    }
    tell_files(out, check.names.as_slice())
}

/// Writes what `certify` is asked for.
fn tell_certify(out: &mut String, certify: &Certify<'_>) -> Result<(), AllocError> {
    out.push_str(
        "certify: a certificate that no joint plan of these agents is cheaper than the one that they find\n",
    )?;
    tell_search(out, Choice::Blind, certify.limit)?;
    out.push_str("threads: one\n")?;
    tell_files(out, certify.names.as_slice())
}

/// Writes what `audit` is asked for.
fn tell_audit(out: &mut String, audit: &Audit<'_>) -> Result<(), AllocError> {
    let certificate = audit.certificate;
    let plan = audit.plan;
    write!(
        out,
        "audit: whether the certificate {certificate} shows that no joint plan of these agents is cheaper than the plan {plan}\n"
    )?;
    tell_files(out, audit.names.as_slice())
}

/// Writes what `make` is asked for.
fn tell_make(out: &mut String, make: Make) -> Result<(), AllocError> {
    let size = make.size;
    let number = make.number;
    write!(
        out,
        "make: a cheapest plan of the delivery problem {number} with {size} agents\n"
    )?;
    tell_search(out, make.heuristic, make.limit)?;
    tell_workers(out, make.workers, make.one)?;
    if make.show {
        out.push_str("the files of the agents are printed before\n")?;
    }
    Ok(())
}

/// Writes what accepted words ask for.
pub(crate) fn tell_accepted(out: &mut String, request: &Request<'_>) -> Result<(), AllocError> {
    out.push_str("maplan accepts these words\n")?;
    match request {
        Request::Solve(solve) => tell_solve(out, solve),
        Request::Replay(replay) => tell_replay(out, replay),
        Request::Check(check) => tell_check(out, check),
        Request::Certify(certify) => tell_certify(out, certify),
        Request::Audit(audit) => tell_audit(out, audit),
        Request::Make(make) => tell_make(out, *make),
    }
}
