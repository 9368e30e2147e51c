//! Hints on metrics that some factors alone have.

use mp_forms::Problem;
use mp_hint_lines::{FileNames, begin_hint, files_of};
use mp_list::OutOfMemory;
use mp_typing::CheckedFactor;

/// The place of the first factor of a team with a metric.
fn first_with_metric(team: &[CheckedFactor]) -> Option<usize> {
    for (place, checked) in team.iter().enumerate() {
        if checked.factor().problem.metric {
            return Some(place);
        }
    }
    None
}

/// Tells that a problem has no metric, where one of this file has.
fn tell_metric(
    out: &mut String,
    file: &str,
    problem: &Problem,
    other: &str,
) -> Result<(), OutOfMemory> {
    if problem.metric {
        return Ok(());
    }
    begin_hint(out, file, problem.word.at)?;
    write!(
        out,
        "no `:metric` here, so each action of this agent costs 1; {other} has one\n"
    )?;
    Ok(())
}

/// Tells which problems have no metric, where another has one.
pub(crate) fn tell_metrics(
    out: &mut String,
    team: &[CheckedFactor],
    files: &[FileNames<'_>],
) -> Result<(), OutOfMemory> {
    let Some(first) = first_with_metric(team) else {
        return Ok(());
    };
    let other = files_of(files, first).problem;
    for (place, checked) in team.iter().enumerate() {
        let problem = &checked.factor().problem;
        tell_metric(out, files_of(files, place).problem, problem, other)?;
    }
    Ok(())
}
