//! Pieces of text and numbers.

ghost use Rattle.std.specs.Prelude.{◌≡◌, ◌++◌, decimal, IfOk, OnOk};
ghost use Rattle.std.specs.List.{flat_map};
ghost use Rattle.mp_maker.specs.Problem.{place as place_of};

use itoa::Buffer;
use mp_list::{List, OutOfMemory};
use std::alloc::Global;

/// Appends pieces of text, one after another.
pub(crate) fn push_all(text: &mut List<u8>, pieces: &[&[u8]]) -> Result<(), OutOfMemory>
    ensures { OnOk result (text.new ≡ text.old ++ flat_map (λ piece. piece.now) pieces.now) }
{
    for piece in pieces {
        text.extend_from_slice(piece)?;
    }
    Ok(())
}

/// A number in decimal.
pub(crate) fn digits(alloc: Global, number: u32) -> Result<List<u8>, OutOfMemory>
    ensures { IfOk result (λ text. text ≡ decimal number) }
{
    let mut buffer = Buffer::new();
    let mut text = List::new(alloc);
    text.extend_from_slice(buffer.format(number).as_bytes())?;
    Ok(text)
}

/// The place of a number: `h` and the number.
pub(crate) fn place(alloc: Global, number: u16) -> Result<List<u8>, OutOfMemory>
    ensures { IfOk result (λ text. text ≡ place_of number) }
{
    let mut buffer = Buffer::new();
    let mut text = List::new(alloc);
    text.push(b'h')?;
    text.extend_from_slice(buffer.format(number).as_bytes())?;
    Ok(text)
}
