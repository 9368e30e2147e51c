//! The cases, line by line.

use crate::answers::{answer_check, answer_fault, answer_members, answer_says, answer_under};
use crate::lines::{Line, read_line};
use crate::texts::Texts;
use crate::words::{show, show_not_read};
use mp_forms::File;
use mp_list::OutOfMemory;
use std::alloc::Global;

/// The texts of the files behind a line.
fn after<'a>(texts: Texts<'a>, line: Line<'a>) -> Texts<'a> {
    match line {
        Line::Domain(domain) => Texts { domain, ..texts },
        Line::Problem(problem) => Texts { problem, ..texts },
        _ => texts,
    }
}

/// The text of a file.
fn text_of<'a>(texts: Texts<'a>, file: File) -> &'a str {
    match file {
        File::Domain => texts.domain,
        File::Problem => texts.problem,
    }
}

/// Adds what a line asks for.
fn answer(
    alloc: Global,
    out: &mut Vec<u8>,
    texts: Texts<'_>,
    line: Line<'_>,
) -> Result<(), OutOfMemory> {
    match line {
        Line::Domain(_) | Line::Problem(_) | Line::Remark => Ok(()),
        Line::Fault(file) => answer_fault(alloc, out, file, text_of(texts, file)),
        Line::Says(file) => answer_says(alloc, out, file, text_of(texts, file)),
        Line::Check => answer_check(alloc, out, texts),
        Line::Under(sub, sup) => answer_under(alloc, out, texts, sub, sup),
        Line::Members(names) => answer_members(alloc, out, texts, names),
        Line::Unread => show_not_read(out),
    }
}

/// Adds a line, and what it asks for.
fn answer_line(
    alloc: Global,
    out: &mut Vec<u8>,
    texts: Texts<'_>,
    text: &str,
) -> Result<(), OutOfMemory> {
    show(out, text.as_bytes())?;
    show(out, b"\n")?;
    answer(alloc, out, texts, read_line(text))
}

/// Adds the lines of the cases, with their answers.
pub(crate) fn answer_cases(
    alloc: Global,
    cases: &str,
    out: &mut Vec<u8>,
) -> Result<(), OutOfMemory> {
    let mut texts = Texts {
        domain: "",
        problem: "",
    };
    for text in cases.lines() {
        texts = after(texts, read_line(text));
        answer_line(alloc, out, texts, text)?;
    }
    Ok(())
}
