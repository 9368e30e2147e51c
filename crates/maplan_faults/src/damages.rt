//! Files that are damaged at each place in turn.

ghost use Rattle.std.specs.Prelude.{◌<◌, length};

use crate::alike::Alike;
use crate::answers::{described, show_answer};
use crate::calls::{Answer, Asked, WIDE_DEVICES, answer_of, answer_with};
use mp_list::OutOfMemory;
use std::alloc::Global;

/// A file that is damaged.
#[derive(Clone, Copy)]
pub(crate) struct Damaged<'a> {
    pub(crate) name: &'a str,
    pub(crate) text: &'a [u8],
}

/// Describes what is answered where the file has another text.
fn try_text(
    alloc: Global,
    asked: Asked<'_>,
    name: &str,
    text: &[u8],
    whole: &Answer,
) -> Result<Vec<u8>, OutOfMemory> {
    let answer = answer_with(alloc, asked, name, text)?;
    described(alloc, &answer, whole, 0, 0)
}

/// Tries each beginning of the file in its place.
pub(crate) fn try_cut(
    alloc: Global,
    asked: Asked<'_>,
    damaged: Damaged<'_>,
    out: &mut Vec<u8>,
) -> Result<(), OutOfMemory> {
    let whole = answer_of(alloc, asked, WIDE_DEVICES)?;
    show_answer(out, &whole)?;
    let mut alike = Alike::new(alloc, "left");
    for left in 0..damaged.text.len() {
        let text = try_text(alloc, asked, damaged.name, &damaged.text[..left], &whole)?;
        alike.add(out, left, text)?;
    }
    alike.show(out)
}

/// The text with a byte changed.
fn changed(alloc: Global, text: &[u8], at: usize, byte: u8) -> Result<Vec<u8>, OutOfMemory>
    requires { at < length text.now }
{
    let mut changed = Vec::new(alloc);
    changed.extend_from_slice(&text[..at])?;
    changed.push(byte)?;
    changed.extend_from_slice(&text[at + 1..])?;
    Ok(changed)
}

/// Tries the file with each byte changed into this one.
pub(crate) fn try_changed(
    alloc: Global,
    asked: Asked<'_>,
    damaged: Damaged<'_>,
    byte: u8,
    out: &mut Vec<u8>,
) -> Result<(), OutOfMemory> {
    let whole = answer_of(alloc, asked, WIDE_DEVICES)?;
    show_answer(out, &whole)?;
    let mut alike = Alike::new(alloc, "at");
    for at in 0..damaged.text.len() {
        let text = changed(alloc, damaged.text, at, byte)?;
        let text = try_text(alloc, asked, damaged.name, text.as_slice(), &whole)?;
        alike.add(out, at, text)?;
    }
    alike.show(out)
}
