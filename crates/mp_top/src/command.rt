//! The words of the command line, and what is answered where they cannot be held.

ghost use Rattle.std.specs.Prelude.{◌≡◌};
ghost use Rattle.mp_top.specs.Call.{seen_sink, Says};
ghost use Rattle.mp_top.specs.Refusal.{memory_line};

use crate::refusal::tell_memory;
use crate::status::Status;
use mp_outside::Sink;
use std::alloc::AllocGlobal;
use std::env::{self, Env};
use std::io::{self, ErrorKind};

/// The words of the command line without the program's name.
fn read_words<R: Env + AllocGlobal>(rt: &R) -> io::Result<Vec<String>> {
    let mut words = Vec::new(rt.alloc());
    for word in env::args(rt)?.skip(1) {
        words.push(word)?;
    }
    Ok(words)
}

/// The words of the command line without the program's name, none where no memory was left for them. Arguments that
/// are not text are no accepted words, so there is no word then.
pub fn command_line<R: Env + AllocGlobal>(rt: &R) -> Option<Vec<String>> {
    match read_words(rt) {
        Ok(words) => Some(words),
        Err(e) if e.kind() == ErrorKind::OutOfMemory => None,
        Err(_) => Some(Vec::new(rt.alloc())),
    }
}

/// What is answered where no memory was left for the words of the command line: the line about it on `err`, and its status.
pub fn without_words<E: Sink>(err: &mut E) -> Status
    ensures status { result ≡ Status.Memory }
    ensures line { Says (seen_sink E.written E.faults err.old err.new) memory_line }
{
    tell_memory(err);
    Status::Memory
}
