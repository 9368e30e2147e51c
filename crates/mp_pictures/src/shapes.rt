//! The shapes of a picture: rectangles and texts.

use crate::writing::push_number;
use mp_list::OutOfMemory;
use mp_messages::Bytes;

/// A rectangle, in pixels.
#[derive(Clone, Copy)]
pub(crate) struct Area {
    pub(crate) left: u64,
    pub(crate) top: u64,
    pub(crate) width: u64,
    pub(crate) height: u64,
}

/// Appends an attribute whose value is a number.
pub(crate) fn push_attribute(out: &mut Bytes, name: &[u8], value: u64) -> Result<(), OutOfMemory> {
    out.extend_from_slice(b" ")?;
    out.extend_from_slice(name)?;
    out.extend_from_slice(b"=\"")?;
    push_number(out, value)?;
    out.extend_from_slice(b"\"")
}

/// Appends the beginning of a tag of a class.
fn push_tag(out: &mut Bytes, tag: &[u8], class: &[u8]) -> Result<(), OutOfMemory> {
    out.extend_from_slice(b"<")?;
    out.extend_from_slice(tag)?;
    out.extend_from_slice(b" class=\"")?;
    out.extend_from_slice(class)?;
    out.extend_from_slice(b"\"")
}

/// Appends a rectangle of a class.
pub(crate) fn push_area(out: &mut Bytes, class: &[u8], area: Area) -> Result<(), OutOfMemory> {
    push_tag(out, b"rect", class)?;
    push_attribute(out, b"x", area.left)?;
    push_attribute(out, b"y", area.top)?;
    push_attribute(out, b"width", area.width)?;
    push_attribute(out, b"height", area.height)?;
    out.extend_from_slice(b"/>\n")
}

/// Appends the tag before a text of a class, which stands at this point or around it, as the class says.
pub(crate) fn begin_text(
    out: &mut Bytes,
    class: &[u8],
    left: u64,
    top: u64,
) -> Result<(), OutOfMemory> {
    push_tag(out, b"text", class)?;
    push_attribute(out, b"x", left)?;
    push_attribute(out, b"y", top)?;
    out.extend_from_slice(b">")
}

/// Appends the tag behind a text.
pub(crate) fn end_text(out: &mut Bytes) -> Result<(), OutOfMemory> {
    out.extend_from_slice(b"</text>\n")
}

/// Appends a text of a class that is a label and a number.
pub(crate) fn push_numbered(
    out: &mut Bytes,
    class: &[u8],
    left: u64,
    top: u64,
    label: &[u8],
    number: u64,
) -> Result<(), OutOfMemory> {
    begin_text(out, class, left, top)?;
    out.extend_from_slice(label)?;
    push_number(out, number)?;
    end_text(out)
}
