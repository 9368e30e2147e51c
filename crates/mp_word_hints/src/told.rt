//! What is told of words.

ghost use Rattle.std.specs.Prelude.{◌≡◌, ◌≢◌, ◌↔◌, IfOk, None, map, string_bytes, true};
ghost use Rattle.mp_words.specs.Requests.{request_of};

use crate::accepted::tell_accepted;
use crate::refused::tell_refused;
use crate::scan::fault_in;
use mp_words::read_request;
use std::alloc::{AllocError, Global};

/// What is told of words for `maplan`.
#[derive(Drop)]
pub struct WordsTold {
    /// Whether `maplan` accepts them.
    pub accepted: bool,
    /// What they ask for, or which of them is refused and why, as lines of text.
    pub text: String,
}

/// What the words ask `maplan` for, or which of them it refuses and what it accepts there. Whether it accepts them is what
/// it finds itself: the same call is asked. Refuses only for want of memory.
pub fn explain_words(alloc: Global, words: &[String]) -> Result<WordsTold, AllocError>
    ensures { IfOk result (λ told. (told.accepted ≡ true) ↔ (request_of (map string_bytes words.now) ≢ None)) }
{
    let mut text = String::new(alloc);
    match read_request(alloc, words)? {
        Some(request) => {
            tell_accepted(&mut text, &request)?;
            Ok(WordsTold {
                accepted: true,
                text,
            })
        }
        None => {
            tell_refused(alloc, &mut text, words, fault_in(alloc, words)?)?;
            Ok(WordsTold {
                accepted: false,
                text,
            })
        }
    }
}
