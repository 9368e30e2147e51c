//! Texts of files as trees: which are read, where others break off; names; and schedules.

use crate::calls::{Call, Out};
use crate::lines::short;
use mp_list::{Copied, OutOfMemory};
use mp_sexp::{Name, Tree, read};
use mp_text::read_schedule;
use std::alloc::Global;

/// Adds why a text is refused, if it is.
fn refusal(alloc: Global, text: &[u8], out: &mut Out) -> Result<(), OutOfMemory> {
    if text.len() > 5_000_000 {
        return out.answer_not_read();
    }
    out.answer(&read(alloc, text).err())
}

/// Adds why a text is refused that is written in hexadecimal.
fn refusal_of_bytes(alloc: Global, digits: &str, out: &mut Out) -> Result<(), OutOfMemory> {
    match hex::decode(alloc, digits) {
        Ok(bytes) => refusal(alloc, bytes.as_slice(), out),
        Err(_) => out.answer_not_read(),
    }
}

/// Adds why lists in each other as deep as this are refused.
fn nested(alloc: Global, depth: u32, out: &mut Out) -> Result<(), OutOfMemory> {
    let mut text = vec![in alloc; b'('; depth as usize]?;
    for _ in 0..depth {
        text.push(b')')?;
    }
    refusal(alloc, text.as_slice(), out)
}

/// Adds why a comment of so many bytes is refused.
fn comment(alloc: Global, length: u32, out: &mut Out) -> Result<(), OutOfMemory> {
    let text = vec![in alloc; b';'; length as usize]?;
    refusal(alloc, text.as_slice(), out)
}

/// Adds a word with its place, or the place of a list and how many members it has.
fn show_member(out: &mut Out, member: &Tree) {
    match member {
        Tree::Word(name, place) => {
            out.show(place);
            out.show_text(name.as_slice());
        }
        Tree::List(list, place) => out.show(&(place, list.items.len())),
    }
}

/// Adds the place of a list, and its members.
fn show_list(out: &mut Out, tree: &Tree) -> Result<(), OutOfMemory> {
    if let Tree::List(list, place) = tree {
        out.show(place);
        for member in list.items.as_slice() {
            show_member(out, member);
        }
    }
    Ok(())
}

/// Adds the list that a text spells.
fn tree(alloc: Global, text: &[u8], out: &mut Out) -> Result<(), OutOfMemory> {
    if text.len() > 10_000 {
        return out.answer_not_read();
    }
    match read(alloc, text) {
        Ok(tree) => show_list(out, &tree),
        Err(refusal) => out.answer(&refusal),
    }
}

/// Adds a name, its length, whether its copy is equal, how it compares to one that has a byte more, and that byte.
fn name(alloc: Global, text: &str, out: &mut Out) -> Result<(), OutOfMemory> {
    let name = Name::folded(alloc, text.as_bytes())?;
    let mut longer = name.copy()?;
    let is_equal = name == longer;
    longer.push(b'-')?;
    out.show_text(name.as_slice());
    out.show(&(name.len(), is_equal, name.cmp(&longer)));
    out.answer(&longer.get(name.len()))
}

/// Adds how many events the schedule of a text for two agents has and the last one, or why it is refused.
fn schedule(alloc: Global, text: &[u8], out: &mut Out) -> Result<(), OutOfMemory> {
    match read_schedule(alloc, text, 2) {
        Ok(events) => out.answer(&(events.len(), events.as_slice().last())),
        Err(refusal) => out.answer(&refusal),
    }
}

/// Adds what a call of a text answers, in which `\n` stands for a line feed.
fn answer_text(alloc: Global, call: Call<'_>, out: &mut Out) -> Result<(), OutOfMemory> {
    let text = call.rest.replace(alloc, "\\n", "\n")?;
    match call.word {
        "read" => refusal(alloc, text.as_bytes(), out),
        "tree" => tree(alloc, text.as_bytes(), out),
        "schedule" => schedule(alloc, text.as_bytes(), out),
        _ => out.answer_not_read(),
    }
}

/// Adds what a call of texts and names answers.
pub(crate) fn answer_texts(
    alloc: Global,
    call: Call<'_>,
    out: &mut Out,
) -> Result<(), OutOfMemory> {
    match call.word {
        "bytes" => refusal_of_bytes(alloc, call.rest, out),
        "nested" => nested(alloc, short(call.rest, 0).min(1000), out),
        "comment" => comment(alloc, short(call.rest, 0), out),
        "name" => name(alloc, call.rest, out),
        _ => answer_text(alloc, call, out),
    }
}
