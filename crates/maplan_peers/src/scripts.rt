//! Scripts that are run.

use crate::answers::add_answer;
use crate::lines::{Line, made_agent, random_agent, read_line};
use crate::machines::machine;
use crate::shown::add_shown;
use crate::walks::add_walks;
use mp_list::OutOfMemory;
use mp_machine::{Local, Machine};
use mp_sets::Agent;
use mp_task::Blind;
use std::alloc::Global;

/// Adds a line.
fn add_line(out: &mut String, text: &str) -> Result<(), OutOfMemory> {
    out.push_str(text)?;
    out.push_str("\n")?;
    Ok(())
}

/// Takes a step, and adds what it answers.
fn take_step(
    alloc: Global,
    machine: &mut Machine<Blind>,
    event: Local,
    bytes: Option<&[u8]>,
    out: &mut String,
) -> Result<(), OutOfMemory> {
    let answer = machine.step(event, bytes);
    add_answer(alloc, out, &answer)
}

/// Takes a message with bytes in hexadecimal, and adds what that answers.
fn take_message(
    alloc: Global,
    machine: &mut Machine<Blind>,
    from: Agent,
    digits: &str,
    out: &mut String,
) -> Result<(), OutOfMemory> {
    match hex::decode(alloc, digits) {
        Ok(bytes) => take_step(
            alloc,
            machine,
            Local::Take(from),
            Some(bytes.as_slice()),
            out,
        ),
        Err(_) => add_line(out, "  not read"),
    }
}

/// Runs a line of a script.
fn run_line(
    alloc: Global,
    machine: &mut Machine<Blind>,
    text: &str,
    out: &mut String,
) -> Result<(), OutOfMemory> {
    add_line(out, text)?;
    match read_line(text) {
        Line::Expand => take_step(alloc, machine, Local::Expand, None, out),
        Line::Start => take_step(alloc, machine, Local::Start, None, out),
        Line::Take(from, digits) => take_message(alloc, machine, from, digits, out),
        Line::Show => add_shown(out, machine),
        Line::Remark => Ok(()),
        Line::Unread => add_line(out, "  not read"),
    }
}

/// Runs the lines of a script.
fn run_lines(
    alloc: Global,
    machine: &mut Machine<Blind>,
    lines: &str,
    out: &mut String,
) -> Result<(), OutOfMemory> {
    for text in lines.lines() {
        run_line(alloc, machine, text, out)?;
    }
    Ok(())
}

/// Runs the lines of a script for the agent of a name, from its start.
fn run_agent(
    alloc: Global,
    name: &str,
    limit: u64,
    lines: &str,
    out: &mut String,
) -> Result<(), OutOfMemory> {
    match machine(alloc, name, limit)? {
        Some(made) => {
            let mut machine = made;
            run_lines(alloc, &mut machine, lines, out)
        }
        None => add_line(out, "  not read"),
    }
}

/// Runs a block that is no script: messages that are made at random, or remarks.
fn run_other(
    alloc: Global,
    block: &str,
    head: &str,
    lines: &str,
    out: &mut String,
) -> Result<(), OutOfMemory> {
    match random_agent(head) {
        Some((name, messages)) => {
            add_line(out, head)?;
            for line in lines.lines() {
                add_line(out, line)?;
            }
            add_walks(alloc, name, messages, out)
        }
        None => add_line(out, block),
    }
}

/// Runs a block. An empty line parts what blocks print.
fn run_block(alloc: Global, block: &str, out: &mut String) -> Result<(), OutOfMemory> {
    if !out.is_empty() {
        out.push_str("\n")?;
    }
    let Some((head, lines)) = block.split_once('\n') else {
        return add_line(out, block);
    };
    match made_agent(head) {
        Some((name, limit)) => {
            add_line(out, head)?;
            run_agent(alloc, name, limit, lines, out)
        }
        None => run_other(alloc, block, head, lines, out),
    }
}

/// Runs the scripts of a file.
pub(crate) fn run_scripts(alloc: Global, text: &str, out: &mut String) -> Result<(), OutOfMemory> {
    for block in text.split("\n\n") {
        run_block(alloc, block, out)?;
    }
    Ok(())
}
