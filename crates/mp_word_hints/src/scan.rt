//! The first thing that is wrong with words, from the left.

use crate::commands::{Command, command_of};
use crate::fault::WordFault;
use crate::options::{Setting, is_number_between, setting_of};
use std::alloc::{AllocError, Global};

/// What was seen of the words behind a command.
#[derive(Drop)]
struct Seen<'a> {
    command: Command,
    /// A bit for each option that was given.
    given: u8,
    /// The option whose value is the next word.
    awaited: Option<Setting>,
    /// Whether all words that come are plain.
    plain_alone: bool,
    plain: Vec<&'a str>,
}

/// Whether a word is plain, as the name of a file: `-`, or one that does not begin with `-`.
fn is_plain(word: &str) -> bool {
    word == "-" || !word.starts_with('-')
}

impl<'a> Seen<'a> {
    /// Notes that an option is given: what is wrong with that.
    fn give(&mut self, at: usize, setting: Setting) -> Option<WordFault<'a>> {
        if !setting.is_of(self.command) {
            return Some(WordFault::NotOfCommand(at, setting));
        }
        let bit = 1 << setting.place();
        if self.given & bit != 0 {
            return Some(WordFault::Again(at, setting));
        }
        self.given |= bit;
        None
    }

    /// Reads an option without a value behind `=`: what is wrong with it.
    fn see_option(&mut self, at: usize, setting: Setting) -> Option<WordFault<'a>> {
        let fault = self.give(at, setting);
        if fault.is_none() && setting.has_value() {
            self.awaited = Some(setting);
        }
        fault
    }

    /// Reads an option with a value behind `=`: what is wrong with it.
    fn see_with_value(
        &mut self,
        at: usize,
        setting: Setting,
        value: &'a str,
    ) -> Option<WordFault<'a>> {
        if !setting.has_value() {
            return Some(WordFault::NoValue(at, setting));
        }
        if !setting.accepts(value) {
            return Some(WordFault::BadValue(at, setting, value));
        }
        self.give(at, setting)
    }

    /// Reads a word that begins with `-` and is not plain: what is wrong with it.
    fn see_dashed(&mut self, at: usize, word: &'a str) -> Option<WordFault<'a>> {
        if word == "--" {
            self.plain_alone = true;
            return None;
        }
        if let Some(setting) = setting_of(word) {
            return self.see_option(at, setting);
        }
        if let Some((name, value)) = word.split_once('=') {
            if let Some(setting) = setting_of(name) {
                return self.see_with_value(at, setting, value);
            }
        }
        Some(WordFault::UnknownOption(at, word))
    }

    /// Reads the next word: what is wrong with it.
    fn see(&mut self, at: usize, word: &'a str) -> Result<Option<WordFault<'a>>, AllocError> {
        if let Some(setting) = self.awaited {
            self.awaited = None;
            if setting.accepts(word) {
                return Ok(None);
            }
            return Ok(Some(WordFault::BadValue(at, setting, word)));
        }
        if self.plain_alone || is_plain(word) {
            self.plain.push(word)?;
            return Ok(None);
        }
        Ok(self.see_dashed(at, word))
    }

    /// What is wrong with the plain words of `make`.
    fn fault_of_make(&self) -> Option<WordFault<'a>> {
        let [family, size, number] = self.plain.as_slice() else {
            return Some(WordFault::Count(self.plain.len()));
        };
        if *family != "delivery" {
            return Some(WordFault::Family(family));
        }
        if !is_number_between(1, 8, size) {
            return Some(WordFault::Size(size));
        }
        if !is_number_between(0, 999_999, number) {
            return Some(WordFault::Number(number));
        }
        None
    }

    /// What is wrong with the number of plain words.
    fn fault_of_files(&self) -> Option<WordFault<'a>> {
        let count = self.plain.len();
        let files = count.saturating_sub(self.command.files_before());
        if files < 2 || files > 32 || files % 2 != 0 {
            return Some(WordFault::Count(count));
        }
        None
    }

    /// What is wrong with the words when all are seen.
    fn fault_at_end(&self) -> Option<WordFault<'a>> {
        if let Some(setting) = self.awaited {
            return Some(WordFault::NoValueLeft(setting));
        }
        match self.command {
            Command::Make => self.fault_of_make(),
            _ => self.fault_of_files(),
        }
    }
}

/// What is wrong with the words behind a command.
fn fault_behind<'a>(
    alloc: Global,
    command: Command,
    words: &'a [String],
) -> Result<Option<WordFault<'a>>, AllocError> {
    let mut seen = Seen {
        command,
        given: 0,
        awaited: None,
        plain_alone: false,
        plain: Vec::new(alloc),
    };
    for (at, word) in words.iter().enumerate() {
        let fault = seen.see(at.saturating_add(2), word.as_str())?;
        if fault.is_some() {
            return Ok(fault);
        }
    }
    Ok(seen.fault_at_end())
}

/// The first thing that is wrong with words, from the left. Refuses only for want of memory.
pub(crate) fn fault_in(
    alloc: Global,
    words: &[String],
) -> Result<Option<WordFault<'_>>, AllocError> {
    let Some(first) = words.first() else {
        return Ok(Some(WordFault::NoCommand));
    };
    match command_of(first.as_str()) {
        Some(command) => fault_behind(alloc, command, &words[1..]),
        None => Ok(Some(WordFault::UnknownCommand(first.as_str()))),
    }
}
