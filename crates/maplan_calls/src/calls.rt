//! Calls, and what they answer.

use crate::lines::split_word;
use mp_list::OutOfMemory;
use std::alloc::Global;
use std::{fmt, str};

/// A call: its word, and what is passed.
#[derive(Clone, Copy)]
pub(crate) struct Call<'a> {
    pub(crate) word: &'a str,
    pub(crate) rest: &'a str,
}

/// What is printed.
#[derive(Drop)]
pub(crate) struct Out {
    pub(crate) text: String,
    /// Whether memory ran out while something was added, so that it lacks there.
    pub(crate) failed: bool,
}

impl Out {
    /// Adds a text.
    pub(crate) fn add(&mut self, text: &str) {
        if self.text.push_str(text).is_err() {
            self.failed = true;
        }
    }

    /// Adds a value behind two spaces.
    pub(crate) fn show<T: fmt::Debug>(&mut self, value: &T) {
        if write!(self.text, "  {value:?}").is_err() {
            self.failed = true;
        }
    }

    /// Adds a value as all that a call answers.
    pub(crate) fn answer<T: fmt::Debug>(&mut self, value: &T) -> Result<(), OutOfMemory> {
        self.show(value);
        Ok(())
    }

    /// Adds a text behind two spaces.
    pub(crate) fn show_text(&mut self, bytes: &[u8]) {
        match str::from_utf8(bytes) {
            Ok(text) => self.show(&text),
            Err(_) => self.show(&bytes),
        }
    }

    /// Adds a line.
    pub(crate) fn add_line(&mut self, text: &str) {
        self.add(text);
        self.add("\n");
    }

    /// Adds that a line is no call.
    pub(crate) fn answer_not_read(&mut self) -> Result<(), OutOfMemory> {
        self.add("  not read");
        Ok(())
    }
}

/// What answers calls, one after another.
pub(crate) trait Answers {
    /// Adds what a call answers.
    fn answer(&mut self, alloc: Global, call: Call<'_>, out: &mut Out) -> Result<(), OutOfMemory>;
}

/// Adds a line, and what it answers if it is a call.
fn run_line<A: Answers>(
    alloc: Global,
    asked: &mut A,
    text: &str,
    out: &mut Out,
) -> Result<(), OutOfMemory> {
    out.add_line(text);
    if text.starts_with('#') {
        return Ok(());
    }
    let (word, rest) = split_word(text);
    let before = out.text.len();
    asked.answer(alloc, Call { word, rest }, out)?;
    if out.text.len() > before {
        out.add("\n");
    }
    Ok(())
}

/// Adds the lines of a block, and what its calls answer in their turn.
pub(crate) fn run_lines<A: Answers>(
    alloc: Global,
    asked: &mut A,
    lines: &str,
    out: &mut Out,
) -> Result<(), OutOfMemory> {
    for text in lines.lines() {
        run_line(alloc, asked, text, out)?;
    }
    Ok(())
}
