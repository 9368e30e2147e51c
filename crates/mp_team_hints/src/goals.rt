//! A hint on a team without goals.

use mp_hint_lines::{FileNames, begin_hint, files_of};
use mp_list::OutOfMemory;
use mp_typing::CheckedFactor;

/// Tells that no factor has a goal, at the first problem, where none has.
pub(crate) fn tell_no_goals(
    out: &mut String,
    team: &[CheckedFactor],
    files: &[FileNames<'_>],
) -> Result<(), OutOfMemory> {
    for checked in team {
        if checked.factor().problem.goals.len() > 0 {
            return Ok(());
        }
    }
    if let Some(first) = team.first() {
        let at = first.factor().problem.word.at;
        begin_hint(out, files_of(files, 0).problem, at)?;
        out.push_str("no factor has a goal, so the plan without steps solves the team\n")?;
    }
    Ok(())
}
