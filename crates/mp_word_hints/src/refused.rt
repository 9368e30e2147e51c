//! What is wrong with words, told.

use crate::commands::{self, Command, command_of, usage_of};
use crate::fault::WordFault;
use crate::options::{self, Setting};
use mp_hints::nearest;
use std::alloc::{AllocError, Global};

/// Writes the nearest known spelling of a word, where there is one.
fn tell_nearest(
    alloc: Global,
    out: &mut String,
    word: &str,
    known: &[&str],
) -> Result<(), AllocError> {
    match nearest(alloc, word, known)? {
        Some(near) => write!(out, "; the nearest is `{near}`"),
        None => Ok(()),
    }
}

/// Writes that a word is no option, with the nearest one.
fn tell_unknown(alloc: Global, out: &mut String, at: usize, word: &str) -> Result<(), AllocError> {
    write!(out, "word {at}, `{word}`, is no option")?;
    let name = match word.split_once('=') {
        Some((name, _)) => name,
        None => word,
    };
    tell_nearest(alloc, out, name, options::NAMES.as_slice())?;
    out.push_str("; the name of a file that begins with `-` stands behind a word `--`\n")
}

/// Writes that a word is no value of its option.
fn tell_value(
    out: &mut String,
    at: usize,
    setting: Setting,
    value: &str,
) -> Result<(), AllocError> {
    let name = setting.name();
    let values = setting.values();
    write!(
        out,
        "word {at}: `{value}` is no value of `{name}`, which wants {values}\n"
    )
}

/// Writes what is wrong with a number of plain words.
fn tell_count(out: &mut String, command: Option<Command>, count: usize) -> Result<(), AllocError> {
    match command {
        Some(Command::Solve) => write!(
            out,
            "`solve` wants a domain file and a problem file of each of 1 to 16 agents, so 2 to 32 names, an even number; here are {count}\n"
        ),
        Some(Command::Certify) => write!(
            out,
            "`certify` wants a domain file and a problem file of each of 1 to 16 agents, so 2 to 32 names, an even number; here are {count}\n"
        ),
        Some(Command::Audit) => write!(
            out,
            "the files of a certificate and of a plan come first, and then a domain file and a problem file of each of 1 to 16 agents, so 4 to 34 names, an even number; here are {count}\n"
        ),
        Some(Command::Make) => write!(
            out,
            "`make` wants three words, `delivery`, a size and a number; here are {count}\n"
        ),
        _ => write!(
            out,
            "one file comes first, and then a domain file and a problem file of each of 1 to 16 agents, so 3 to 33 names, an odd number; here are {count}\n"
        ),
    }
}

/// Writes what is wrong with an option.
fn tell_option(
    out: &mut String,
    at: usize,
    setting: Setting,
    what: &str,
) -> Result<(), AllocError> {
    let name = setting.name();
    write!(out, "word {at}: `{name}` {what}\n")
}

/// Writes what is wrong with words.
fn tell_fault(
    alloc: Global,
    out: &mut String,
    command: Option<Command>,
    fault: WordFault<'_>,
) -> Result<(), AllocError> {
    match fault {
        WordFault::NoCommand => out.push_str("there is no word: the first one is a command\n"),
        WordFault::UnknownCommand(word) => {
            write!(out, "word 1, `{word}`, is no command")?;
            tell_nearest(alloc, out, word, commands::NAMES.as_slice())?;
            out.push('\n')
        }
        WordFault::UnknownOption(at, word) => tell_unknown(alloc, out, at, word),
        WordFault::NotOfCommand(at, setting) => {
            tell_option(out, at, setting, "is no option of this command")
        }
        WordFault::Again(at, setting) => tell_option(out, at, setting, "is given a second time"),
        WordFault::NoValue(at, setting) => tell_option(out, at, setting, "takes no value"),
        WordFault::BadValue(at, setting, value) => tell_value(out, at, setting, value),
        WordFault::NoValueLeft(setting) => {
            let name = setting.name();
            let values = setting.values();
            write!(out, "the last word, `{name}`, lacks its value: {values}\n")
        }
        WordFault::Count(count) => tell_count(out, command, count),
        WordFault::Family(word) => {
            write!(
                out,
                "`{word}` is no family of problems; there is one, `delivery`\n"
            )
        }
        WordFault::Size(word) => write!(
            out,
            "`{word}` is no size, which is a number from 1 to 8\n"
        ),
        WordFault::Number(word) => {
            write!(
                out,
                "`{word}` is no number of a problem, which is one from 0 to 999999\n"
            )
        }
    }
}

/// Writes the words of a command, or of all where it is not known.
fn tell_usage(out: &mut String, command: Option<Command>) -> Result<(), AllocError> {
    match command {
        Some(command) => {
            let usage = usage_of(command);
            write!(out, "accepted: maplan {usage}\n")
        }
        None => {
            for name in commands::NAMES {
                if let Some(command) = command_of(name) {
                    let usage = usage_of(command);
                    write!(out, "accepted: maplan {usage}\n")?;
                }
            }
            Ok(())
        }
    }
}

/// Writes why words are refused.
pub(crate) fn tell_refused(
    alloc: Global,
    out: &mut String,
    words: &[String],
    fault: Option<WordFault<'_>>,
) -> Result<(), AllocError> {
    let command = match words.first() {
        Some(first) => command_of(first.as_str()),
        None => None,
    };
    out.push_str("maplan refuses these words\n")?;
    if let Some(fault) = fault {
        tell_fault(alloc, out, command, fault)?;
    }
    tell_usage(out, command)
}
