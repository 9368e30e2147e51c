//! Numbers and costs at the end of a line.

ghost use Rattle.std.specs.Prelude.{◌≡◌, ◌++◌, decimal, OnOk};

use itoa::Buffer;
use mp_list::OutOfMemory;
use mp_messages::Bytes;

/// Appends a number in decimal.
pub fn push_number(text: &mut Bytes, number: u64) -> Result<(), OutOfMemory>
    ensures { OnOk result (text.new ≡ text.old ++ decimal number) }
{
    let mut buffer = Buffer::new();
    text.extend_from_slice(buffer.format(number).as_bytes())
}

/// Appends a cost, and `none` where there is none.
pub fn push_cost(text: &mut Bytes, cost: Option<u64>) -> Result<(), OutOfMemory> {
    match cost {
        Some(cost) => push_number(text, cost),
        None => text.extend_from_slice(b"none"),
    }
}
