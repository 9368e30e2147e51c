//! Files in memory.

use mp_list::{List, OutOfMemory};
use mp_outside::NamedText;
use std::alloc::Global;

/// A file.
pub(crate) fn named(alloc: Global, name: &str, text: &[u8]) -> Result<NamedText, OutOfMemory> {
    Ok(NamedText {
        name: String::from_str(alloc, name)?,
        text: text.to_vec(alloc)?,
    })
}

/// Holds one more file.
pub(crate) fn add_text(
    alloc: Global,
    texts: &mut Vec<NamedText>,
    name: &str,
    text: &[u8],
) -> Result<(), OutOfMemory> {
    texts.push(named(alloc, name, text)?)?;
    Ok(())
}

/// The text of the first file of a name.
pub(crate) fn text_of<'a>(texts: &'a [NamedText], name: &str) -> Option<&'a [u8]> {
    for text in texts {
        if text.name.as_str() == name {
            return Some(text.text.as_slice());
        }
    }
    None
}

/// Adds a file to those of a source, where it is held.
fn add_file(
    alloc: Global,
    texts: &[NamedText],
    name: &str,
    files: &mut List<NamedText>,
) -> Result<(), OutOfMemory> {
    match text_of(texts, name) {
        Some(text) => files.push(named(alloc, name, text)?),
        None => Ok(()),
    }
}

/// Adds the files that these words name to those of a source.
pub(crate) fn add_files(
    alloc: Global,
    texts: &[NamedText],
    words: &[String],
    files: &mut List<NamedText>,
) -> Result<(), OutOfMemory> {
    for word in words {
        add_file(alloc, texts, word.as_str(), files)?;
    }
    Ok(())
}

/// Adds a part so many times.
fn add_part(
    texts: &[NamedText],
    name: &str,
    count: u32,
    made: &mut Vec<u8>,
) -> Result<(), OutOfMemory> {
    let Some(part) = text_of(texts, name) else {
        return Ok(());
    };
    for _ in 0..count {
        made.extend_from_slice(part)?;
    }
    Ok(())
}

/// The text of some parts, each of which stands behind the number of times that it comes.
fn made_text(alloc: Global, texts: &[NamedText], parts: &str) -> Result<Vec<u8>, OutOfMemory> {
    let mut made = Vec::new(alloc);
    let mut count = 0;
    for word in parts.split_whitespace() {
        match word.parse::<u32>() {
            Ok(number) => count = number,
            Err(_) => add_part(texts, word, count, &mut made)?,
        }
    }
    Ok(made)
}

/// Holds a file that is made of parts.
pub(crate) fn make_text(
    alloc: Global,
    texts: &mut Vec<NamedText>,
    name: &str,
    parts: &str,
) -> Result<(), OutOfMemory> {
    let made = made_text(alloc, texts.as_slice(), parts)?;
    add_text(alloc, texts, name, made.as_slice())
}
