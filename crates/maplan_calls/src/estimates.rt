//! Tasks, and the values of their starts.

ghost use Rattle.std.specs.Prelude.{◌≡◌, ◌≤◌};
ghost use Rattle.mp_task.specs.Heuristic.{SizesFit};

use crate::calls::{Answers, Call, Out, run_lines};
use crate::tasks::task;
use mp_hmax::Hmax;
use mp_list::OutOfMemory;
use mp_lmcut::Cut;
use mp_pdb::Pdb;
use mp_sets::Bits;
use mp_task::{Blind, Heuristic, Task};
use std::alloc::Global;

/// Adds the value of a state, made twice by one heuristic, which has to forget the first time.
fn twice<H: Heuristic>(
    heuristic: &mut H,
    publics: &Bits,
    privates: &Bits,
    out: &mut Out,
) -> Result<(), OutOfMemory>
    requires { SizesFit (H.is_for heuristic.old) publics.now.size privates.now.size }
{
    let first = heuristic.value(publics, privates)?;
    out.answer(&(first, heuristic.value(publics, privates)?))
}

/// Adds the value of the start of a task, made twice.
fn start<H: Heuristic>(alloc: Global, task: &Task, out: &mut Out) -> Result<(), OutOfMemory> {
    let publics = Bits::from_list(alloc, task.publics, &task.start_pub)?;
    let privates = Bits::from_list(alloc, task.privates, &task.start_priv)?;
    twice(&mut H::make(alloc, task)?, &publics, &privates, out)
}

/// Adds whether the first action of a task is public.
fn first_public(task: &Task, out: &mut Out) -> Result<(), OutOfMemory> {
    if task.acts.len() > 0 {
        out.show(&task.is_public(0));
    }
    Ok(())
}

impl Answers for Task {
    fn answer(&mut self, alloc: Global, call: Call<'_>, out: &mut Out) -> Result<(), OutOfMemory> {
        match call.word {
            "public" => first_public(self, out),
            "blind" => start::<Blind>(alloc, self, out),
            "hmax" => start::<Hmax>(alloc, self, out),
            "cut" => start::<Cut>(alloc, self, out),
            "pdb" => start::<Pdb>(alloc, self, out),
            _ => Ok(()),
        }
    }
}

/// Runs the calls of a task with so many facts of each kind.
pub(crate) fn run_task(
    alloc: Global,
    facts: u32,
    head: &str,
    lines: &str,
    out: &mut Out,
) -> Result<(), OutOfMemory>
    requires { facts ≤ 8 }
{
    if let Some(task) = task(alloc, facts, head, lines)? {
        let mut task = task;
        return run_lines(alloc, &mut task, lines, out);
    }
    Ok(())
}
