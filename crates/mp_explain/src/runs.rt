//! Runs of a team, told.

use crate::answer::{Answer, made_of, plain, telling};
use crate::ending::Ending;
use crate::reading::{AGENTS, accepted_team};
use mp_grounder::GroundRefusal;
use mp_list::OutOfMemory;
use mp_outside::{Sink, Source};
use mp_run_hints::run_team;
use mp_typing::CheckedFactor;
use mp_word_hints::explain_words;
use mp_words::{Request, Solve, read_request};
use mp_world::Answer as TeamAnswer;
use std::alloc::Global;

/// How a call ends that told what a team found.
fn ending_of(found: TeamAnswer) -> Ending {
    match found {
        TeamAnswer::Solved { .. } => Ending::Fine,
        TeamAnswer::Undecided => Ending::Undecided,
        TeamAnswer::Nothing | TeamAnswer::Unsolvable => Ending::Faulty,
    }
}

/// What a team does, told.
fn run_of<E: Sink>(
    alloc: Global,
    team: &[CheckedFactor],
    solve: &Solve<'_>,
    err: &mut E,
) -> Result<Answer, OutOfMemory> {
    let limit = solve.limit;
    let agents = team.len();
    // (accepted words keep these limits)
    if limit == 0 || limit > 10_000_000 || agents == 0 || agents > AGENTS {
        return Ok(plain(alloc, "", Ending::Words)?);
    }
    match run_team(alloc, team, solve.heuristic, limit, solve.trace, err) {
        Ok(told) => {
            let ending = ending_of(told.answer);
            Ok(made_of(alloc, told.text, ending))
        }
        Err(GroundRefusal::OutOfMemory) => Err(OutOfMemory),
        Err(_) => Ok(plain(
            alloc,
            "a factor is too large; `maplan_explain team` tells its sizes\n",
            Ending::Faulty,
        )?),
    }
}

/// What the team of accepted words does, or what is wrong with its files.
fn answer_solve<S: Source, E: Sink>(
    alloc: Global,
    source: &mut S,
    solve: &Solve<'_>,
    err: &mut E,
) -> Result<Answer, OutOfMemory> {
    let mut text = String::new(alloc);
    match accepted_team(alloc, source, &mut text, solve.names.as_slice())? {
        Some(team) => run_of(alloc, team.as_slice(), solve, err),
        None => Ok(telling(alloc, text, Ending::Faulty)),
    }
}

/// The words of a call of `maplan solve` with these options and files.
fn solve_words(alloc: Global, words: &[String]) -> Result<Vec<String>, OutOfMemory> {
    let mut all = Vec::new(alloc);
    all.push(String::from_str(alloc, "solve")?)?;
    for word in words {
        all.push(word.clone()?)?;
    }
    Ok(all)
}

/// What the team does that the options and files of `maplan solve` ask for, or which of these words is refused.
pub(crate) fn answer_run<S: Source, E: Sink>(
    alloc: Global,
    source: &mut S,
    words: &[String],
    err: &mut E,
) -> Result<Answer, OutOfMemory> {
    let all = solve_words(alloc, words)?;
    if let Some(Request::Solve(solve)) = read_request(alloc, all.as_slice())? {
        return answer_solve(alloc, source, &solve, err);
    }
    let told = explain_words(alloc, all.as_slice())?;
    Ok(telling(alloc, told.text, Ending::Faulty))
}
