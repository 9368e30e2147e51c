//! The cases, line by line.

use crate::answers::{show, show_answer};
use crate::calls::{Asked, Device, Devices, WIDE_DEVICES, answer_of};
use crate::damages::{Damaged, try_changed, try_cut};
use crate::devices::try_devices;
use crate::texts::{add_text, make_text, text_of};
use mp_list::OutOfMemory;
use mp_outside::NamedText;
use std::alloc::Global;

/// The words of a line.
fn words(alloc: Global, line: &str) -> Result<Vec<String>, OutOfMemory> {
    let mut words = Vec::new(alloc);
    for word in line.split_whitespace() {
        words.push(String::from_str(alloc, word)?)?;
    }
    Ok(words)
}

/// Adds the line of what can't be read.
fn show_not_read(out: &mut Vec<u8>) -> Result<(), OutOfMemory> {
    show(out, b"  not read\n")
}

/// A device that moves so many bytes at a call, and what stands behind that number.
fn device(line: &str) -> Option<(Device, &str)> {
    let (number, rest) = line.split_once(' ')?;
    match number.parse::<usize>() {
        Ok(piece) => Some((Device { piece, failing: 0 }, rest)),
        Err(_) => None,
    }
}

/// The devices of three numbers, and what stands behind these.
fn devices(line: &str) -> Option<(Devices, &str)> {
    let (source, rest) = device(line)?;
    let (out, rest) = device(rest)?;
    let (err, rest) = device(rest)?;
    Some((Devices { source, out, err }, rest))
}

/// Tries devices.
fn run_devices(
    alloc: Global,
    texts: &[NamedText],
    line: &str,
    out: &mut Vec<u8>,
) -> Result<(), OutOfMemory> {
    let Some((devices, line)) = devices(line) else {
        return show_not_read(out);
    };
    let words = words(alloc, line)?;
    let asked = Asked {
        texts,
        words: words.as_slice(),
    };
    try_devices(alloc, asked, devices, out)
}

/// Tries the beginnings of a file.
fn run_cut(
    alloc: Global,
    texts: &[NamedText],
    line: &str,
    out: &mut Vec<u8>,
) -> Result<(), OutOfMemory> {
    let Some((name, line)) = line.split_once(' ') else {
        return show_not_read(out);
    };
    let Some(text) = text_of(texts, name) else {
        return show_not_read(out);
    };
    let words = words(alloc, line)?;
    let asked = Asked {
        texts,
        words: words.as_slice(),
    };
    try_cut(alloc, asked, Damaged { name, text }, out)
}

/// Tries a file with each byte changed into this one.
fn run_changed_into(
    alloc: Global,
    texts: &[NamedText],
    byte: u8,
    line: &str,
    out: &mut Vec<u8>,
) -> Result<(), OutOfMemory> {
    let Some((name, line)) = line.split_once(' ') else {
        return show_not_read(out);
    };
    let Some(text) = text_of(texts, name) else {
        return show_not_read(out);
    };
    let words = words(alloc, line)?;
    let asked = Asked {
        texts,
        words: words.as_slice(),
    };
    try_changed(alloc, asked, Damaged { name, text }, byte, out)
}

/// Tries a file with each byte changed.
fn run_changed(
    alloc: Global,
    texts: &[NamedText],
    line: &str,
    out: &mut Vec<u8>,
) -> Result<(), OutOfMemory> {
    let Some((number, line)) = line.split_once(' ') else {
        return show_not_read(out);
    };
    match number.parse::<u8>() {
        Ok(byte) => run_changed_into(alloc, texts, byte, line, out),
        Err(_) => show_not_read(out),
    }
}

/// Calls the program: its output.
fn run_words(
    alloc: Global,
    texts: &[NamedText],
    line: &str,
    out: &mut Vec<u8>,
) -> Result<Vec<u8>, OutOfMemory> {
    let words = words(alloc, line)?;
    let asked = Asked {
        texts,
        words: words.as_slice(),
    };
    let answer = answer_of(alloc, asked, WIDE_DEVICES)?;
    show_answer(out, &answer)?;
    Ok(answer.out.as_slice().to_vec(alloc)?)
}

/// Adds whether a text is that of a file.
fn show_same(
    texts: &[NamedText],
    name: &str,
    text: &[u8],
    out: &mut Vec<u8>,
) -> Result<(), OutOfMemory> {
    match text_of(texts, name) {
        Some(other) if other == text => show(out, b"  yes\n"),
        Some(_) => show(out, b"  no\n"),
        None => show_not_read(out),
    }
}

/// Does what a line asks for that tries devices or damaged files, or is a remark.
fn try_line(
    alloc: Global,
    texts: &[NamedText],
    line: &str,
    out: &mut Vec<u8>,
) -> Result<(), OutOfMemory> {
    if let Some(rest) = line.strip_prefix("devices ") {
        return run_devices(alloc, texts, rest, out);
    }
    if let Some(rest) = line.strip_prefix("cut ") {
        return run_cut(alloc, texts, rest, out);
    }
    if let Some(rest) = line.strip_prefix("changed ") {
        return run_changed(alloc, texts, rest, out);
    }
    if line.is_empty() || line.starts_with('#') {
        return Ok(());
    }
    show_not_read(out)
}

/// Does what a line asks for. The last output is that of the last call.
fn run_line(
    alloc: Global,
    texts: &mut Vec<NamedText>,
    line: &str,
    last: &mut Vec<u8>,
    out: &mut Vec<u8>,
) -> Result<(), OutOfMemory> {
    if let Some(rest) = line.strip_prefix("run ") {
        *last = run_words(alloc, texts.as_slice(), rest, out)?;
        return Ok(());
    }
    if let Some(name) = line.strip_prefix("keep ") {
        return add_text(alloc, texts, name, last.as_slice());
    }
    if let Some(name) = line.strip_prefix("same ") {
        return show_same(texts.as_slice(), name, last.as_slice(), out);
    }
    if let Some(rest) = line.strip_prefix("made ") {
        return match rest.split_once(' ') {
            Some((name, parts)) => make_text(alloc, texts, name, parts),
            None => show_not_read(out),
        };
    }
    try_line(alloc, texts.as_slice(), line, out)
}

/// Adds the lines of the cases, with what they ask for.
pub(crate) fn run_cases(
    alloc: Global,
    cases: &str,
    texts: &mut Vec<NamedText>,
    out: &mut Vec<u8>,
) -> Result<(), OutOfMemory> {
    let mut last = Vec::new(alloc);
    for line in cases.lines() {
        show(out, line.as_bytes())?;
        show(out, b"\n")?;
        run_line(alloc, texts, line, &mut last, out)?;
    }
    Ok(())
}
