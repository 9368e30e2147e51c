//! The greatest levels of the actions that have a fact.

ghost use Rattle.std.specs.Prelude.{◌≡◌, ℕ, OnOk, if◌then◌else◌};
ghost use Rattle.mp_steps.specs.Numbered.{best_against, is_in, marks_at as marks_of, mark_against as against_in, with_mark as with};

use crate::mark::{Mark, NO_MARK, better};
use crate::put::put;
use crate::role::Role;
use mp_list::OutOfMemory;

/// The greatest levels of the actions that ask for a fact or against it, add it and delete it.
#[derive(Clone, Copy)]
pub struct FactMarks {
    pub needed: Mark,
    pub added: Mark,
    pub deleted: Mark,
}

/// Of a fact that no action has.
const NO_MARKS: FactMarks = FactMarks {
    needed: NO_MARK,
    added: NO_MARK,
    deleted: NO_MARK,
};

/// The marks of a fact.
fn marks_at(marks: &[FactMarks], fact: u32) -> FactMarks
    ensures { result ≡ marks_of marks.now fact }
{
    match marks.get(fact as usize) {
        Some(found) => *found,
        None => NO_MARKS,
    }
}

/// The best mark in the other roles.
fn mark_against(role: Role, marks: FactMarks) -> Mark
    ensures { result ≡ against_in role marks }
{
    match role {
        Role::Needed => better(marks.added, marks.deleted),
        Role::Added => better(marks.needed, marks.deleted),
        Role::Deleted => better(marks.needed, marks.added),
    }
}

/// Marks with one more in a role.
fn with_mark(role: Role, mark: Mark, marks: FactMarks) -> FactMarks
    ensures { result ≡ with role mark marks }
{
    match role {
        Role::Needed => FactMarks {
            needed: better(marks.needed, mark),
            added: marks.added,
            deleted: marks.deleted,
        },
        Role::Added => FactMarks {
            needed: marks.needed,
            added: better(marks.added, mark),
            deleted: marks.deleted,
        },
        Role::Deleted => FactMarks {
            needed: marks.needed,
            added: marks.added,
            deleted: better(marks.deleted, mark),
        },
    }
}

/// The best of a mark and of those that facts have in the other roles.
#[tactic(auto, unfolding(crate::specs::Numbered::best_against))]
pub fn best_of(marks: &[FactMarks], role: Role, facts: &[u32], first: Mark) -> Mark
    ensures { result ≡ best_against marks.now role facts.now first }
{
    let mut best = first;
    for fact in facts {
        best = better(best, mark_against(role, marks_at(marks, *fact)));
    }
    best
}

/// Marks facts in a role. Refuses only for want of memory.
pub fn note(
    marks: &mut Vec<FactMarks>,
    role: Role,
    facts: &[u32],
    mark: Mark,
) -> Result<(), OutOfMemory>
    ensures { OnOk result ((f : ℕ) → marks_of marks.new.items f
        ≡ (if is_in facts.now f then with role mark (marks_of marks.old.items f)
        else marks_of marks.old.items f)) }
{
    for fact in facts {
        let new = with_mark(role, mark, marks_at(marks.as_slice(), *fact));
        put(marks, *fact as usize, NO_MARKS, new)?;
    }
    Ok(())
}
