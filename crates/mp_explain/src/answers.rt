//! What the program prints for words.

use crate::answer::{Answer, no_command, plain, telling};
use crate::commands::{Command, command_of};
use crate::ending::Ending;
use crate::help::{HELP, VERSION};
use crate::plans::{answer_ipc, answer_picture};
use crate::runs::answer_run;
use crate::teams::{Asked, answer_team, asked_of_team, asked_united};
use crate::writing::{told, written};
use mp_list::OutOfMemory;
use mp_outside::{Sink, Source};
use mp_word_hints::explain_words;
use std::alloc::Global;

/// What is printed for words for `maplan`.
fn answer_words(alloc: Global, words: &[String]) -> Result<Answer, OutOfMemory> {
    let told = explain_words(alloc, words)?;
    let ending = if told.accepted {
        Ending::Fine
    } else {
        Ending::Faulty
    };
    Ok(telling(alloc, told.text, ending))
}

/// What is printed for the words behind a command.
fn answer_command<S: Source, E: Sink>(
    alloc: Global,
    command: Command,
    words: &[String],
    source: &mut S,
    err: &mut E,
) -> Result<Answer, OutOfMemory> {
    match command {
        Command::Help => Ok(plain(alloc, HELP, Ending::Fine)?),
        Command::Version => Ok(plain(alloc, VERSION, Ending::Fine)?),
        Command::Words => answer_words(alloc, words),
        Command::Files => answer_team(alloc, source, words, Asked::Files),
        Command::Team => {
            let (asked, behind) = asked_of_team(words);
            answer_team(alloc, source, behind, asked)
        }
        Command::Run => answer_run(alloc, source, words, err),
        Command::Picture => answer_picture(alloc, source, words),
        Command::Ipc => answer_ipc(alloc, source, words),
        Command::Unite => {
            let (asked, behind) = asked_united(words);
            answer_team(alloc, source, behind, asked)
        }
    }
}

/// What is printed for these words.
fn answer<S: Source, E: Sink>(
    alloc: Global,
    words: &[String],
    source: &mut S,
    err: &mut E,
) -> Result<Answer, OutOfMemory> {
    let [first, behind @ ..] = words else {
        return Ok(plain(alloc, HELP, Ending::Fine)?);
    };
    match command_of(first.as_str()) {
        Some(command) => answer_command(alloc, command, behind, source, err),
        None => no_command(alloc),
    }
}

/// Prints what these words, those of the command line without the program's name, ask for, and gives how the call ends. Files
/// are read from the source. How far a run is, a line about words that are no command, a write that failed and want of memory
/// go to `err`.
pub fn explain<S: Source, K: Sink, E: Sink>(
    alloc: Global,
    words: &[String],
    source: &mut S,
    out: &mut K,
    err: &mut E,
) -> Ending {
    match answer(alloc, words, source, err) {
        Ok(found) => {
            let texts = [found.text.as_bytes(), found.made.as_slice()];
            let ending = written(out, &texts, found.ending);
            told(err, ending)
        }
        Err(OutOfMemory) => told(err, Ending::Memory),
    }
}
