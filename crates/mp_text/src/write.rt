//! Bytes, numbers and labels at the end of a text.

ghost use Rattle.std.specs.Prelude.{◌≡◌, ◌++◌, decimal, OnOk};
ghost use Rattle.hex.specs.Hex.{encode_lower};

use itoa::Buffer;
use mp_list::OutOfMemory;
use mp_messages::Bytes;
use mp_sets::Agent;
use std::alloc::Global;

/// Appends bytes.
pub(crate) fn push_bytes(text: &mut Bytes, bytes: &[u8]) -> Result<(), OutOfMemory>
    ensures { OnOk result (text.new ≡ text.old ++ bytes.now) }
{
    text.extend_from_slice(bytes)
}

/// Appends a number in decimal.
pub(crate) fn push_number(text: &mut Bytes, number: u128) -> Result<(), OutOfMemory>
    ensures { OnOk result (text.new ≡ text.old ++ decimal number) }
{
    let mut buffer = Buffer::new();
    push_bytes(text, buffer.format(number).as_bytes())
}

/// Appends the number of an agent.
pub(crate) fn push_agent(text: &mut Bytes, agent: Agent) -> Result<(), OutOfMemory>
    ensures { OnOk result (text.new ≡ text.old ++ decimal agent) }
{
    push_number(text, u128::from(agent.number()))
}

/// Appends bytes in lower-case hexadecimal.
pub(crate) fn push_hexadecimal(
    alloc: Global,
    text: &mut Bytes,
    bytes: &[u8],
) -> Result<(), OutOfMemory>
    ensures { OnOk result (text.new ≡ text.old ++ encode_lower bytes.now) }
{
    let digits = hex::encode(alloc, bytes)?;
    push_bytes(text, digits.as_str().as_bytes())
}
