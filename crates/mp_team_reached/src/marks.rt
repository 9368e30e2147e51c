//! The facts that the relaxed problem of a team reaches: first the public ones of the team by their numbers, and then the
//! private ones of one agent after another.

use mp_grounder::Ground;
use mp_task::Act;

/// How many rounds over all actions are made at most.
const MOST_ROUNDS: usize = 1000;

/// Where the marks of an agent's facts are.
#[derive(Clone, Copy)]
pub struct Part<'a> {
    /// The team's numbers of its public facts, by their places.
    pub numbers: &'a [u32],
    /// The mark of its first private fact.
    pub first: usize,
}

/// Where the marks of the agent at a place are.
pub fn part_of<'a>(
    grounds: &[Ground],
    numbers: &'a [Vec<u32>],
    publics: usize,
    place: usize,
) -> Part<'a> {
    let mut first = publics;
    for (at, made) in grounds.iter().enumerate() {
        if at < place {
            first = first.saturating_add(made.privates as usize);
        }
    }
    match numbers.get(place) {
        Some(own) => Part {
            numbers: own.as_slice(),
            first,
        },
        None => Part {
            numbers: &[],
            first,
        },
    }
}

/// The mark of a private fact.
pub fn private_mark(part: Part<'_>, fact: u32) -> usize {
    part.first.saturating_add(fact as usize)
}

/// The mark of the public fact at a place: that of no fact where there is none.
pub fn public_mark(part: Part<'_>, place: u32) -> usize {
    match part.numbers.get(place as usize) {
        Some(number) => *number as usize,
        None => usize::MAX,
    }
}

/// Whether a fact is marked.
pub fn is_marked(marks: &[bool], at: usize) -> bool {
    match marks.get(at) {
        Some(mark) => *mark,
        None => false,
    }
}

/// Marks a fact, and says whether it was not marked.
pub fn mark(marks: &mut Vec<bool>, at: usize) -> bool {
    match marks.get_mut(at) {
        Some(mark) => {
            let is_new = !*mark;
            *mark = true;
            is_new
        }
        None => false,
    }
}

/// Whether the preconditions of an action are marked.
fn is_ready(marks: &[bool], part: Part<'_>, act: &Act) -> bool {
    for place in act.pre_pub.as_slice() {
        if !is_marked(marks, public_mark(part, *place)) {
            return false;
        }
    }
    for fact in act.pre_priv.as_slice() {
        if !is_marked(marks, private_mark(part, *fact)) {
            return false;
        }
    }
    true
}

/// Marks what an action makes true, and says whether some of it was not marked.
fn apply(marks: &mut Vec<bool>, part: Part<'_>, act: &Act) -> bool {
    let mut is_new = false;
    for place in act.add_pub.as_slice() {
        if mark(marks, public_mark(part, *place)) {
            is_new = true;
        }
    }
    for fact in act.add_priv.as_slice() {
        if mark(marks, private_mark(part, *fact)) {
            is_new = true;
        }
    }
    is_new
}

/// Marks what the actions of an agent make true whose preconditions are marked, and says whether some of it was not marked.
fn apply_all(marks: &mut Vec<bool>, part: Part<'_>, acts: &[Act]) -> bool {
    let mut is_new = false;
    for act in acts {
        if is_ready(marks.as_slice(), part, act) && apply(marks, part, act) {
            is_new = true;
        }
    }
    is_new
}

/// Marks what the actions of all agents make true in one round, and says whether some of it was not marked.
fn apply_round(
    marks: &mut Vec<bool>,
    grounds: &[Ground],
    numbers: &[Vec<u32>],
    publics: usize,
) -> bool {
    let mut is_new = false;
    for (place, made) in grounds.iter().enumerate() {
        let part = part_of(grounds, numbers, publics, place);
        if apply_all(marks, part, made.acts.as_slice()) {
            is_new = true;
        }
    }
    is_new
}

/// Marks all that the relaxed problem reaches from what is marked, and says whether that came to an end.
pub fn settle(
    marks: &mut Vec<bool>,
    grounds: &[Ground],
    numbers: &[Vec<u32>],
    publics: usize,
) -> bool {
    for _ in 0..MOST_ROUNDS {
        if !apply_round(marks, grounds, numbers, publics) {
            return true;
        }
    }
    false
}
