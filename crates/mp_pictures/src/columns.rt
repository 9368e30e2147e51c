//! The columns of a picture, one for each step.

use crate::labels::{action_at, length_of_arguments, shown_length};
use crate::page::MARGIN;
use mp_joint::PlanStep;
use mp_list::{List, OutOfMemory};
use std::alloc::Global;

/// How wide a character is of the name of an action, of 13 pixels, and of its arguments, of 11.
const NAME_CHARACTER: u64 = 8;

const ARGUMENT_CHARACTER: u64 = 7;

/// What is left free in a box to the left and the right of its text, taken together.
const PADDING: u64 = 20;

/// The least width of a box.
const NARROWEST: u64 = 40;

/// What is left free between two columns, in which the line of the chain is seen.
const GAP: u64 = 32;

/// What is left free before a column where the agents are named.
pub(crate) const NAMED_GAP: u64 = 88;

/// The agents are named before the first column, and before each such one.
const NAMED_EACH: usize = 8;

/// Where a column stands, and how wide its boxes are.
#[derive(Clone, Copy)]
pub(crate) struct Column {
    pub(crate) left: u64,
    pub(crate) width: u64,
}

impl Column {
    /// Where it ends.
    pub(crate) fn right(self) -> u64 {
        self.left.saturating_add(self.width)
    }

    /// Its middle.
    pub(crate) fn middle(self) -> u64 {
        self.left.saturating_add(self.width / 2)
    }
}

/// Whether the agents are named before the column at a place.
pub(crate) fn is_named(place: usize) -> bool {
    place % NAMED_EACH == 0
}

/// What is left free before the column at a place.
fn gap_before(place: usize) -> u64 {
    if is_named(place) { NAMED_GAP } else { GAP }
}

/// How wide a box has to be for the text of an action.
fn width_of(step: &PlanStep) -> u64 {
    let name = shown_length(step.action.as_slice().len());
    let arguments = shown_length(length_of_arguments(step.args.as_slice()));
    let widest = name
        .saturating_mul(NAME_CHARACTER)
        .max(arguments.saturating_mul(ARGUMENT_CHARACTER));
    widest.saturating_add(PADDING)
}

/// How wide the boxes of a step are: as its longest text needs.
fn width_of_step(plan: &[PlanStep], times: &[u64]) -> u64 {
    let mut width = NARROWEST;
    for time in times {
        if let Some(step) = action_at(plan, *time) {
            width = width.max(width_of(step));
        }
    }
    width
}

/// The columns of steps, from the left.
pub(crate) fn columns_of(
    alloc: Global,
    plan: &[PlanStep],
    steps: &[List<u64>],
) -> Result<Vec<Column>, OutOfMemory> {
    let mut columns = Vec::with_capacity(alloc, steps.len())?;
    let mut right = MARGIN;
    for (place, times) in steps.iter().enumerate() {
        let column = Column {
            left: right.saturating_add(gap_before(place)),
            width: width_of_step(plan, times.as_slice()),
        };
        right = column.right();
        columns.push(column)?;
    }
    Ok(columns)
}
