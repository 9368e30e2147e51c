//! Blocks of calls, by what they are about.

use crate::bindings::answer_bindings;
use crate::calls::{Answers, Call, Out, run_lines};
use crate::estimates::run_task;
use crate::lines::split_word;
use crate::lists::answer_lists;
use crate::messages::answer_messages;
use crate::names::answer_names;
use crate::outside::answer_outside;
use crate::runs::answer_runs;
use crate::searches::run_search;
use crate::sets::answer_sets;
use crate::snapshots::run_snapshot;
use crate::stores::run_store;
use crate::tasks::{FACTS, WIDE};
use crate::texts::answer_texts;
use crate::tokens::run_tokens;
use crate::trails::run_trail;
use mp_hmax::Hmax;
use mp_list::OutOfMemory;
use mp_task::Blind;
use std::alloc::Global;

/// What answers calls that have no state, by what they are about.
#[derive(Drop)]
struct Plain<'a> {
    about: &'a str,
}

impl<'a> Answers for Plain<'a> {
    fn answer(&mut self, alloc: Global, call: Call<'_>, out: &mut Out) -> Result<(), OutOfMemory> {
        match self.about {
            "lists" => answer_lists(alloc, call, out),
            "sets" => answer_sets(alloc, call, out),
            "runs" => answer_runs(alloc, call, out),
            "texts" => answer_texts(alloc, call, out),
            "names" => answer_names(alloc, call, out),
            "messages" => answer_messages(alloc, call, out),
            "bindings" => answer_bindings(alloc, call, out),
            "outside" => answer_outside(alloc, call, out),
            _ => Ok(()),
        }
    }
}

/// Runs the calls of a block.
fn run_calls(
    alloc: Global,
    about: &str,
    passed: &str,
    lines: &str,
    out: &mut Out,
) -> Result<(), OutOfMemory> {
    match about {
        "store" => run_store(alloc, lines, out),
        "trail" => run_trail(alloc, lines, out),
        "tokens" => run_tokens(alloc, passed, lines, out),
        "snapshot" => run_snapshot(alloc, passed, lines, out),
        "task" => run_task(alloc, FACTS, passed, lines, out),
        "wide" => run_task(alloc, WIDE, passed, lines, out),
        "blind" => run_search::<Blind>(alloc, passed, lines, out),
        "hmax" => run_search::<Hmax>(alloc, passed, lines, out),
        _ => run_lines(alloc, &mut Plain { about }, lines, out),
    }
}

/// Runs a block. An empty line parts what blocks print.
fn run_block(alloc: Global, block: &str, out: &mut Out) -> Result<(), OutOfMemory> {
    if !out.text.is_empty() {
        out.add("\n");
    }
    let Some((head, lines)) = block.split_once('\n') else {
        out.add_line(block);
        return Ok(());
    };
    out.add_line(head);
    let (about, passed) = split_word(head);
    run_calls(alloc, about, passed, lines.trim_end(), out)
}

/// Runs the blocks of a file.
pub(crate) fn run_blocks(alloc: Global, text: &str, out: &mut Out) -> Result<(), OutOfMemory> {
    for block in text.split("\n\n") {
        run_block(alloc, block, out)?;
    }
    Ok(())
}
