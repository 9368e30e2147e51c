//! Bytes of a file or of the command line as text.

use std::{fmt, str};

/// Bytes that are printed as the text that they are; bytes that are no text are printed as `?`.
#[derive(Clone, Copy)]
pub struct Shown<'a>(pub &'a [u8]);

impl<'a> fmt::Display for Shown<'a> {
    fn fmt<W: fmt::Write>(&self, f: &mut fmt::Formatter<W>) -> fmt::Result {
        match str::from_utf8(self.0) {
            Ok(text) => f.write_str(text),
            Err(_) => f.write_str("?"),
        }
    }
}

/// Bytes of a file as the text that they are; bytes that are no text are `?`.
pub fn text_of(bytes: &[u8]) -> &str {
    match str::from_utf8(bytes) {
        Ok(text) => text,
        Err(_) => "?",
    }
}
