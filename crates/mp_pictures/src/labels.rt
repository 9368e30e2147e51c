//! The texts in a box: the name of an action, and its arguments.

use crate::writing::push_escaped;
use mp_joint::PlanStep;
use mp_list::{List, OutOfMemory};
use mp_messages::Bytes;
use mp_sexp::Name;
use std::alloc::Global;

/// The most characters of a line in a box.
const LONGEST: usize = 40;

/// How many of them are shown of a longer line, before `..`.
const SHOWN: usize = 38;

/// The action of a time, counted from 1.
pub(crate) fn action_at(plan: &[PlanStep], time: u64) -> Option<&PlanStep> {
    if time == 0 {
        return None;
    }
    plan.get(time as usize - 1)
}

/// How many characters are shown of a line of so many.
pub(crate) fn shown_length(length: usize) -> u64 {
    length.min(LONGEST) as u64
}

/// The first characters of a line, so many where it has as many.
fn front(line: &[u8], count: usize) -> &[u8] {
    if count <= line.len() {
        return &line[..count];
    }
    line
}

/// Appends a line as text between tags, cut where it is too long for a box.
pub(crate) fn push_cut(out: &mut Bytes, line: &[u8]) -> Result<(), OutOfMemory> {
    if line.len() > LONGEST {
        push_escaped(out, front(line, SHOWN))?;
        return out.extend_from_slice(b"..");
    }
    push_escaped(out, line)
}

/// How many characters arguments have, a blank between each two.
pub(crate) fn length_of_arguments(args: &[Name]) -> usize {
    let mut length: usize = 0;
    for arg in args {
        length = length
            .saturating_add(arg.as_slice().len())
            .saturating_add(1);
    }
    length.saturating_sub(1)
}

/// Appends arguments, a blank before each.
fn push_arguments(out: &mut Bytes, args: &[Name]) -> Result<(), OutOfMemory> {
    for arg in args {
        out.extend_from_slice(b" ")?;
        out.extend_from_slice(arg.as_slice())?;
    }
    Ok(())
}

/// Appends arguments, a blank between each two.
fn push_argument_line(out: &mut Bytes, args: &[Name]) -> Result<(), OutOfMemory> {
    let [first, others @ ..] = args else {
        return Ok(());
    };
    out.extend_from_slice(first.as_slice())?;
    push_arguments(out, others)
}

/// The arguments of an action as one line.
pub(crate) fn argument_line(alloc: Global, args: &[Name]) -> Result<Bytes, OutOfMemory> {
    let mut line = List::new(alloc);
    push_argument_line(&mut line, args)?;
    Ok(line)
}
