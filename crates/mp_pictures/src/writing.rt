//! Numbers, and texts that may hold any bytes, at the end of an XML document.

ghost use Rattle.std.specs.Prelude.{◌≡◌, ◌++◌, decimal, OnOk};
ghost use Rattle.std.specs.List.{flat_map};
ghost use Rattle.mp_pictures.specs.Escaped.{escaped_byte};

use itoa::Buffer;
use mp_list::OutOfMemory;
use mp_messages::Bytes;

/// Appends a number in decimal.
pub(crate) fn push_number(out: &mut Bytes, number: u64) -> Result<(), OutOfMemory>
    ensures { OnOk result (out.new ≡ out.old ++ decimal number) }
{
    let mut buffer = Buffer::new();
    out.extend_from_slice(buffer.format(number).as_bytes())
}

/// Appends a byte of a text: one that would end the text as its entity, and one that is not printed as `?`.
#[tactic(auto, unfolding(crate::specs::Escaped::escaped_byte))]
fn push_escaped_byte(out: &mut Bytes, byte: u8) -> Result<(), OutOfMemory>
    ensures { OnOk result (out.new ≡ out.old ++ escaped_byte byte) }
{
    if byte == b'&' {
        return out.extend_from_slice(b"&amp;");
    }
    if byte == b'<' {
        return out.extend_from_slice(b"&lt;");
    }
    if byte == b'>' {
        return out.extend_from_slice(b"&gt;");
    }
    if byte < 32 {
        return out.push(b'?');
    }
    if 126 < byte {
        return out.push(b'?');
    }
    out.push(byte)
}

/// Appends a text between tags.
pub(crate) fn push_escaped(out: &mut Bytes, text: &[u8]) -> Result<(), OutOfMemory>
    ensures { OnOk result (out.new ≡ out.old ++ flat_map escaped_byte text.now) }
{
    for byte in text {
        push_escaped_byte(out, *byte)?;
    }
    Ok(())
}
