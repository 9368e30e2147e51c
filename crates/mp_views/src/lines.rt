//! Views as texts.

ghost use Rattle.std.specs.Prelude.{◌≡◌, ◌++◌, ◌∷◌, [], map, IfOk, OnOk};
ghost use Rattle.mp_views.specs.Lines.{labelled, spaced, part_line, met_line, open_lines, closed_lines, text_of_lines, view_text};

use crate::view::{Part, View};
use itoa::Buffer;
use mp_lifting::OpenView;
use mp_list::OutOfMemory;
use mp_messages::Bytes;
use mp_sexp::Name;
use std::alloc::Global;

/// Appends a line for each text, with a word before it.
fn push_labelled(text: &mut Bytes, label: &[u8], names: &[Name]) -> Result<(), OutOfMemory>
    ensures { OnOk result (text.new ≡ text.old ++ text_of_lines (labelled label.now names.now)) }
{
    for name in names {
        text.extend_from_slice(label)?;
        text.extend_from_slice(name.as_slice())?;
        text.push(b'\n')?;
    }
    Ok(())
}

/// Appends a word, and texts behind it, each behind one space.
fn push_spaced(text: &mut Bytes, label: &[u8], names: &[Name]) -> Result<(), OutOfMemory>
    ensures { OnOk result (text.new ≡ text.old ++ (label.now ++ spaced names.now)) }
{
    text.extend_from_slice(label)?;
    for name in names {
        text.push(b' ')?;
        text.extend_from_slice(name.as_slice())?;
    }
    Ok(())
}

/// Appends the line of a part, without a line feed.
pub(crate) fn push_part(text: &mut Bytes, part: &Part) -> Result<(), OutOfMemory>
    ensures { OnOk result (text.new ≡ text.old ++ part_line part.now) }
{
    let mut cost = Buffer::new();
    text.extend_from_slice(b"act ")?;
    text.extend_from_slice(cost.format(part.cost).as_bytes())?;
    push_spaced(text, b" pre", part.pre.as_slice())?;
    push_spaced(text, b" add", part.add.as_slice())?;
    push_spaced(text, b" del", part.del.as_slice())
}

/// Appends the lines of parts.
fn push_parts(text: &mut Bytes, parts: &[Part]) -> Result<(), OutOfMemory>
    ensures { OnOk result (text.new ≡ text.old ++ text_of_lines (map part_line parts.now)) }
{
    for part in parts {
        push_part(text, part)?;
        text.push(b'\n')?;
    }
    Ok(())
}

/// Appends whether the private goals hold at the start.
fn push_met(text: &mut Bytes, met: bool) -> Result<(), OutOfMemory>
    ensures { OnOk result (text.new ≡ text.old ++ text_of_lines (met_line met ∷ [])) }
{
    if met {
        text.extend_from_slice(b"met yes\n")
    } else {
        text.extend_from_slice(b"met no\n")
    }
}

/// Appends what an agent shows before grounding.
fn push_open(text: &mut Bytes, view: &OpenView) -> Result<(), OutOfMemory>
    ensures { OnOk result (text.new ≡ text.old ++ text_of_lines (open_lines view.now)) }
{
    push_labelled(text, b"changed ", view.changed.as_slice())?;
    push_labelled(text, b"negated ", view.negated.as_slice())?;
    push_labelled(text, b"init ", view.init.as_slice())
}

/// Appends what an agent shows after grounding.
fn push_closed(text: &mut Bytes, view: &View) -> Result<(), OutOfMemory>
    ensures { OnOk result (text.new ≡ text.old ++ text_of_lines (closed_lines view.now)) }
{
    push_labelled(text, b"fact ", view.facts.as_slice())?;
    push_labelled(text, b"goal ", view.goals.as_slice())?;
    push_met(text, view.met)?;
    push_parts(text, view.acts.as_slice())
}

/// What an agent shows of itself, as bytes: what it shows before grounding, and then what it shows after it. Refuses
/// only for want of memory.
pub fn view_bytes(alloc: Global, before: &OpenView, after: &View) -> Result<Bytes, OutOfMemory>
    ensures { IfOk result (λ bytes. bytes ≡ view_text before.now after.now) }
{
    let mut text = Bytes::new(alloc);
    push_open(&mut text, before)?;
    push_closed(&mut text, after)?;
    Ok(text)
}
