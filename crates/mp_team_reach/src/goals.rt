//! Which goals there is a hint on.

use crate::privates::private_goal;
use crate::told::{push_literal, tell_goal};
use mp_forms::Literal;
use mp_grounder::{Ground, GroundRefusal};
use mp_hint_lines::{FileNames, files_of};
use mp_lifted::LiftedFactor;
use mp_lifting::{OpenView, lift};
use mp_list::OutOfMemory;
use mp_sexp::Name;
use mp_task::Act;
use mp_team_facts::{grounds_of, public_facts};
use mp_team_reached::{
    Part, is_marked, numbers_of, part_of, private_mark, public_mark, settle, start_marks,
};
use mp_typing::CheckedFactor;
use std::alloc::Global;

/// The most goals of an agent that are told of, public ones and private ones apart.
const MOST: usize = 12;

/// What the relaxed problem of a team reaches.
#[derive(Clone, Copy)]
struct Reached<'a> {
    grounds: &'a [Ground],
    /// For each agent the team's numbers of its public facts.
    numbers: &'a [Vec<u32>],
    /// How many public facts the team has.
    publics: usize,
    marks: &'a [bool],
}

/// Whether an action makes the public fact with this mark true.
fn adds_public(part: Part<'_>, act: &Act, fact: usize) -> bool {
    for place in act.add_pub.as_slice() {
        if public_mark(part, *place) == fact {
            return true;
        }
    }
    false
}

/// Whether one of some actions makes the public fact with this mark true.
fn have_public(part: Part<'_>, acts: &[Act], fact: usize) -> bool {
    for act in acts {
        if adds_public(part, act, fact) {
            return true;
        }
    }
    false
}

/// Whether an action of the team makes the public fact with this mark true.
fn is_public_added(reached: Reached<'_>, fact: usize) -> bool {
    for (place, made) in reached.grounds.iter().enumerate() {
        let part = part_of(reached.grounds, reached.numbers, reached.publics, place);
        if have_public(part, made.acts.as_slice(), fact) {
            return true;
        }
    }
    false
}

/// Whether one of some actions makes a private fact true.
fn have_private(acts: &[Act], fact: u32) -> bool {
    for act in acts {
        if act.add_priv.as_slice().contains(&fact) {
            return true;
        }
    }
    false
}

/// The literal that has this text.
fn literal_with<'a>(
    alloc: Global,
    literals: &'a [Literal],
    text: &[u8],
) -> Result<Option<&'a Literal>, OutOfMemory> {
    let mut spelled = String::new(alloc);
    for literal in literals {
        spelled.clear();
        push_literal(&mut spelled, literal)?;
        if spelled.as_bytes() == text {
            return Ok(Some(literal));
        }
    }
    Ok(None)
}

/// Tells that the public goal with this text and mark cannot be reached.
fn tell_public(
    alloc: Global,
    out: &mut String,
    file: &str,
    reached: Reached<'_>,
    literals: &[Literal],
    text: &[u8],
    fact: usize,
) -> Result<(), OutOfMemory> {
    match literal_with(alloc, literals, text)? {
        Some(literal) => tell_goal(out, file, literal, is_public_added(reached, fact)),
        None => Ok(()),
    }
}

/// Tells which public goals of an agent cannot be reached.
fn tell_publics(
    alloc: Global,
    out: &mut String,
    file: &str,
    reached: Reached<'_>,
    part: Part<'_>,
    made: &Ground,
    literals: &[Literal],
) -> Result<(), OutOfMemory> {
    let mut count = 0;
    for place in made.goal_pub.as_slice() {
        let fact = public_mark(part, *place);
        if count < MOST && !is_marked(reached.marks, fact) {
            if let Some(text) = made.publics.get(*place as usize) {
                tell_public(alloc, out, file, reached, literals, text.as_slice(), fact)?;
            }
            count += 1;
        }
    }
    Ok(())
}

/// Tells that the private goal at a place of an agent's private goals cannot be reached.
fn tell_private(
    alloc: Global,
    out: &mut String,
    file: &str,
    lifted: &LiftedFactor,
    made: &Ground,
    literals: &[Literal],
    place: usize,
    fact: u32,
) -> Result<(), OutOfMemory> {
    match private_goal(alloc, lifted, literals, place)? {
        Some(literal) => {
            let is_added = have_private(made.acts.as_slice(), fact);
            tell_goal(out, file, literal, is_added)
        }
        None => Ok(()),
    }
}

/// Tells which private goals of an agent cannot be reached.
fn tell_privates(
    alloc: Global,
    out: &mut String,
    file: &str,
    marks: &[bool],
    part: Part<'_>,
    made: &Ground,
    lifted: &LiftedFactor,
    literals: &[Literal],
) -> Result<(), OutOfMemory> {
    let mut count = 0;
    for (place, fact) in made.goal_priv.as_slice().iter().enumerate() {
        if count < MOST && !is_marked(marks, private_mark(part, *fact)) {
            tell_private(alloc, out, file, lifted, made, literals, place, *fact)?;
            count += 1;
        }
    }
    Ok(())
}

/// Whether all private goals of an agent are reached.
fn are_privates_reached(marks: &[bool], part: Part<'_>, made: &Ground) -> bool {
    for fact in made.goal_priv.as_slice() {
        if !is_marked(marks, private_mark(part, *fact)) {
            return false;
        }
    }
    true
}

/// Tells which goals of the agent at a place cannot be reached.
fn tell_agent(
    alloc: Global,
    out: &mut String,
    file: &str,
    reached: Reached<'_>,
    place: usize,
    made: &Ground,
    checked: &CheckedFactor,
    known: &OpenView,
) -> Result<(), OutOfMemory> {
    let part = part_of(reached.grounds, reached.numbers, reached.publics, place);
    let literals = checked.factor().problem.goals.as_slice();
    tell_publics(alloc, out, file, reached, part, made, literals)?;
    if are_privates_reached(reached.marks, part, made) {
        return Ok(());
    }
    let lifted = lift(alloc, checked, known)?;
    tell_privates(
        alloc,
        out,
        file,
        reached.marks,
        part,
        made,
        &lifted,
        literals,
    )
}

/// Tells which goals of all agents cannot be reached.
fn tell_agents(
    alloc: Global,
    out: &mut String,
    team: &[CheckedFactor],
    known: &OpenView,
    files: &[FileNames<'_>],
    reached: Reached<'_>,
) -> Result<(), OutOfMemory> {
    for (place, checked) in team.iter().enumerate() {
        if let Some(made) = reached.grounds.get(place) {
            let file = files_of(files, place).problem;
            tell_agent(alloc, out, file, reached, place, made, checked, known)?;
        }
    }
    Ok(())
}

/// Tells which goals cannot be reached, where these are the texts of all public facts.
fn tell_with_texts(
    alloc: Global,
    out: &mut String,
    team: &[CheckedFactor],
    known: &OpenView,
    files: &[FileNames<'_>],
    grounds: &[Ground],
    texts: &[Name],
) -> Result<(), OutOfMemory> {
    let numbers = numbers_of(alloc, grounds, texts)?;
    let mut marks = start_marks(alloc, grounds, known.init.as_slice(), texts)?;
    if !settle(&mut marks, grounds, numbers.as_slice(), texts.len()) {
        return Ok(());
    }
    let reached = Reached {
        grounds,
        numbers: numbers.as_slice(),
        publics: texts.len(),
        marks: marks.as_slice(),
    };
    tell_agents(alloc, out, team, known, files, reached)
}

/// Tells which goals cannot be reached with these grounded factors.
fn tell_with_grounds(
    alloc: Global,
    out: &mut String,
    team: &[CheckedFactor],
    known: &OpenView,
    files: &[FileNames<'_>],
    grounds: &[Ground],
) -> Result<(), OutOfMemory> {
    let texts = public_facts(alloc, grounds)?;
    tell_with_texts(alloc, out, team, known, files, grounds, texts.as_slice())
}

/// Writes hints on goals of a team that shows this before grounding, where the relaxed problem of the team, in which no
/// action makes anything false, cannot reach them: that no action makes the goal true, or that none that does can be
/// reached. Nothing is written where a factor is too large for `maplan`. Refuses only for want of memory.
pub fn explain_reach(
    alloc: Global,
    out: &mut String,
    team: &[CheckedFactor],
    known: &OpenView,
    files: &[FileNames<'_>],
) -> Result<(), OutOfMemory> {
    match grounds_of(alloc, team, known) {
        Ok(grounds) => tell_with_grounds(alloc, out, team, known, files, grounds.as_slice()),
        Err(GroundRefusal::OutOfMemory) => Err(OutOfMemory),
        Err(_) => Ok(()),
    }
}
