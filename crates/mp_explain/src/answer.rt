//! What a call is answered with.

use crate::ending::Ending;
use mp_list::{List, OutOfMemory};
use mp_messages::Bytes;
use std::alloc::{AllocError, Global};

/// What is printed, and how the call ends.
#[derive(Drop)]
pub(crate) struct Answer {
    /// What is told.
    pub(crate) text: String,
    /// What is made of the files, behind it.
    pub(crate) made: Bytes,
    pub(crate) ending: Ending,
}

/// An answer that tells a text.
pub(crate) fn telling(alloc: Global, text: String, ending: Ending) -> Answer {
    Answer {
        text,
        made: List::new(alloc),
        ending,
    }
}

/// An answer that is made of files.
pub(crate) fn made_of(alloc: Global, made: Bytes, ending: Ending) -> Answer {
    Answer {
        text: String::new(alloc),
        made,
        ending,
    }
}

/// An answer that tells a text as it is.
pub(crate) fn plain(alloc: Global, text: &str, ending: Ending) -> Result<Answer, AllocError> {
    let text = String::from_str(alloc, text)?;
    Ok(telling(alloc, text, ending))
}

/// The answer to words that are no command.
pub(crate) fn no_command(alloc: Global) -> Result<Answer, OutOfMemory> {
    Ok(plain(alloc, "", Ending::Words)?)
}
