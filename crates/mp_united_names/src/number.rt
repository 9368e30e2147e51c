//! Numbers at the end of a text.

use itoa::Buffer;
use mp_list::OutOfMemory;
use mp_messages::Bytes;

/// Appends a number in decimal.
pub fn push_number(text: &mut Bytes, number: u64) -> Result<(), OutOfMemory> {
    let mut buffer = Buffer::new();
    text.extend_from_slice(buffer.format(number).as_bytes())
}
