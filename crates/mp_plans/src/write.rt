//! Numbers and labels at the end of a text.

ghost use Rattle.std.specs.Prelude.{◌≡◌, ◌++◌, ◌∷◌, [], decimal, OnOk};
ghost use Rattle.mp_text.specs.Outcome.{labelled};

use itoa::Buffer;
use mp_list::OutOfMemory;
use mp_messages::Bytes;

/// Appends a number in decimal.
pub(crate) fn push_number(text: &mut Bytes, number: u64) -> Result<(), OutOfMemory>
    ensures { OnOk result (text.new ≡ text.old ++ decimal number) }
{
    let mut buffer = Buffer::new();
    text.extend_from_slice(buffer.format(number).as_bytes())
}

/// Appends a label and a number.
pub(crate) fn push_labelled(text: &mut Bytes, label: &[u8], number: u64) -> Result<(), OutOfMemory>
    ensures { OnOk result (text.new ≡ text.old ++ labelled label.now number) }
{
    text.extend_from_slice(label)?;
    push_number(text, number)
}

/// Appends a line of a label and a number.
pub(crate) fn push_labelled_line(
    text: &mut Bytes,
    label: &[u8],
    number: u64,
) -> Result<(), OutOfMemory>
    ensures { OnOk result (text.new ≡ text.old ++ (labelled label.now number ++ 10 ∷ [])) }
{
    push_labelled(text, label, number)?;
    text.extend_from_slice(b"\n")
}
