//! What is told of a team.

use crate::goals::tell_no_goals;
use crate::metrics::tell_metrics;
use mp_hint_lines::{FileNames, files_of};
use mp_lifting::OpenView;
use mp_list::OutOfMemory;
use mp_sets::Agent;
use mp_team_actions::explain_actions;
use mp_team_facts::{agent_at, shown_by_all};
use mp_team_names::explain_names;
use mp_team_reach::explain_reach;
use mp_team_table::{push_header, push_row, size_of_factor};
use mp_team_types::explain_types;
use mp_typing::CheckedFactor;
use std::alloc::Global;

/// Writes the row of an agent, and hints on its files alone.
fn explain_agent(
    alloc: Global,
    out: &mut String,
    hints: &mut String,
    me: Agent,
    checked: &CheckedFactor,
    known: &OpenView,
    files: FileNames<'_>,
) -> Result<(), OutOfMemory> {
    let number = me.number();
    explain_types(alloc, hints, checked.factor(), files)?;
    let tried = explain_actions(alloc, hints, checked, known, files.domain)?;
    let size = size_of_factor(alloc, me, checked, known)?;
    push_row(alloc, out, number, checked, &size, tried)
}

/// Writes the rows of a team that shows this before grounding, and hints on the files of each agent alone.
fn explain_agents(
    alloc: Global,
    out: &mut String,
    hints: &mut String,
    team: &[CheckedFactor],
    known: &OpenView,
    files: &[FileNames<'_>],
) -> Result<(), OutOfMemory> {
    push_header(out)?;
    for (place, checked) in team.iter().enumerate() {
        if let Some(me) = agent_at(place) {
            explain_agent(
                alloc,
                out,
                hints,
                me,
                checked,
                known,
                files_of(files, place),
            )?;
        }
    }
    Ok(())
}

/// Writes the table of a team, and all hints into a text of their own.
fn explain_all(
    alloc: Global,
    out: &mut String,
    hints: &mut String,
    team: &[CheckedFactor],
    files: &[FileNames<'_>],
) -> Result<(), OutOfMemory> {
    let known = shown_by_all(alloc, team)?;
    explain_names(alloc, hints, team, files)?;
    explain_agents(alloc, out, hints, team, &known, files)?;
    tell_metrics(hints, team, files)?;
    tell_no_goals(hints, team, files)?;
    explain_reach(alloc, hints, team, &known, files)
}

/// Writes hints below a line that says what they are.
fn push_hints(out: &mut String, hints: &str) -> Result<(), OutOfMemory> {
    if hints.is_empty() {
        out.push_str("hints: none\n")?;
    } else {
        out.push_str("hints, each a guess at what may be wrong:\n")?;
        out.push_str(hints)?;
    }
    Ok(())
}

/// Writes what is told of a team whose files `maplan` accepts, of at most 16 agents: a table with a row for each agent, and
/// hints on what may be wrong, each with its file and place. The names of the files stand in the order of the agents.
/// Refuses only for want of memory.
pub fn explain_team(
    alloc: Global,
    out: &mut String,
    team: &[CheckedFactor],
    files: &[FileNames<'_>],
) -> Result<(), OutOfMemory> {
    let mut hints = String::new(alloc);
    explain_all(alloc, out, &mut hints, team, files)?;
    push_hints(out, hints.as_str())
}
