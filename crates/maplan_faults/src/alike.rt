//! Numbers of which the same is told stand together.

use crate::answers::{show, show_number};
use mp_list::OutOfMemory;
use std::alloc::Global;

/// The numbers of the last answers that are described alike, and how they are.
#[derive(Drop)]
pub(crate) struct Alike {
    heading: &'static str,
    first: usize,
    last: usize,
    text: Vec<u8>,
}

impl Alike {
    /// No number yet.
    pub(crate) fn new(alloc: Global, heading: &'static str) -> Alike {
        Alike {
            heading,
            first: 0,
            last: 0,
            text: Vec::new(alloc),
        }
    }

    /// Adds the line of the last numbers, if there are any.
    pub(crate) fn show(&self, out: &mut Vec<u8>) -> Result<(), OutOfMemory> {
        if self.text.is_empty() {
            return Ok(());
        }
        show(out, b"  ")?;
        show(out, self.heading.as_bytes())?;
        show(out, b" ")?;
        show_number(out, self.first as u64)?;
        if self.first < self.last {
            show(out, b" to ")?;
            show_number(out, self.last as u64)?;
        }
        show(out, b": ")?;
        show(out, self.text.as_slice())?;
        show(out, b"\n")
    }

    /// Takes one more number, and adds the line of those before it where they are described otherwise.
    pub(crate) fn add(
        &mut self,
        out: &mut Vec<u8>,
        number: usize,
        text: Vec<u8>,
    ) -> Result<(), OutOfMemory> {
        if self.text.as_slice() == text.as_slice() {
            self.last = number;
            return Ok(());
        }
        self.show(out)?;
        self.first = number;
        self.last = number;
        self.text = text;
        Ok(())
    }
}
