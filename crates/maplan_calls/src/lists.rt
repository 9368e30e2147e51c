//! Lists as a caller meets them: compared, sorted, as keys of maps, gone over and copied.

use crate::calls::{Call, Out};
use crate::lines::{long, part};
use mp_list::{Copied, List, OutOfMemory, SmallList};
use std::alloc::Global;
use std::collections::{BTreeMap, HashMap};
use std::fmt;
use std::hash::{DefaultHasher, Hash, Hasher};

fn list_of(alloc: Global, text: &str) -> Result<List<u8>, OutOfMemory> {
    let mut list = List::with_capacity(alloc, text.len())?;
    list.extend_from_slice(text.as_bytes())?;
    Ok(list)
}

fn hash_of(word: &List<u8>) -> u64 {
    let mut state = DefaultHasher::new();
    word.hash(&mut state);
    state.finish()
}

/// Adds how two lists compare: by order, by equality, by `PartialOrd` and by hash.
fn compare(alloc: Global, a: &str, b: &str, out: &mut Out) -> Result<(), OutOfMemory> {
    let one = list_of(alloc, a)?;
    let other = list_of(alloc, b)?;
    let order = (one.cmp(&other), one == other);
    out.answer(&(
        order,
        one.partial_cmp(&other),
        hash_of(&one) == hash_of(&other),
    ))
}

/// Adds words in order.
fn sort(alloc: Global, words: &str, out: &mut Out) -> Result<(), OutOfMemory> {
    let mut sorted = Vec::new(alloc);
    for word in words.split_whitespace() {
        sorted.push(list_of(alloc, word)?)?;
    }
    sorted.sort()?;
    out.answer(&sorted)
}

/// Adds the number of a word in the map of these by their order.
fn ordered(alloc: Global, word: &str, words: &str, out: &mut Out) -> Result<(), OutOfMemory> {
    let mut numbers: BTreeMap<List<u8>, usize> = BTreeMap::new(alloc);
    for (number, other) in words.split_whitespace().enumerate() {
        numbers.insert(list_of(alloc, other)?, number)?;
    }
    out.answer(&numbers.get(&list_of(alloc, word)?).copied())
}

/// Adds the number of a word in the map of these by their hashes.
fn hashed(alloc: Global, word: &str, words: &str, out: &mut Out) -> Result<(), OutOfMemory> {
    let mut numbers: HashMap<List<u8>, usize> = HashMap::new(alloc);
    for (number, other) in words.split_whitespace().enumerate() {
        numbers.insert(list_of(alloc, other)?, number)?;
    }
    out.answer(&numbers.get(&list_of(alloc, word)?).copied())
}

/// Adds a copy of a list of two equal values.
fn pair<T: Copied + fmt::Debug + Drop>(
    alloc: Global,
    value: T,
    out: &mut Out,
) -> Result<(), OutOfMemory> {
    let mut list = List::new(alloc);
    list.push(value.copy()?)?;
    list.push(value)?;
    out.answer(&list.copy()?)
}

/// Adds a list of these bytes that is copied in a loop.
fn bytes(alloc: Global, text: &str, out: &mut Out) -> Result<(), OutOfMemory> {
    let list = list_of(alloc, text)?;
    let mut copy = List::new(alloc);
    for byte in &list {
        copy.push(*byte)?;
    }
    out.answer(&copy)
}

/// Adds a copy of a list of three lists.
fn lists(alloc: Global, text: &str, out: &mut Out) -> Result<(), OutOfMemory> {
    let mut lists = List::new(alloc);
    for at in 0..3 {
        lists.push(list_of(alloc, part(text, at))?)?;
    }
    out.answer(&lists.copy()?)
}

/// Adds a copy of a short list.
fn short_list(alloc: Global, text: &str, out: &mut Out) -> Result<(), OutOfMemory> {
    let mut list = SmallList::new(alloc);
    for word in text.split_whitespace() {
        list.push(long(word, 0))?;
    }
    out.answer(&list.copy()?)
}

/// Adds what a call of lists answers.
pub(crate) fn answer_lists(
    alloc: Global,
    call: Call<'_>,
    out: &mut Out,
) -> Result<(), OutOfMemory> {
    let rest = call.rest;
    let number = long(rest, 0);
    match call.word {
        "compare" => compare(alloc, part(rest, 0), part(rest, 1), out),
        "sort" => sort(alloc, rest, out),
        "ordered" => ordered(alloc, part(rest, 0), part(rest, 1), out),
        "hashed" => hashed(alloc, part(rest, 0), part(rest, 1), out),
        "bool" => pair(alloc, number > 0, out),
        "u8" => pair(alloc, (number & 0xff) as u8, out),
        "u32" => pair(alloc, (number & 0xffff_ffff) as u32, out),
        "u64" => pair(alloc, number, out),
        "bytes" => bytes(alloc, rest, out),
        "lists" => lists(alloc, rest, out),
        "short" => short_list(alloc, rest, out),
        _ => out.answer_not_read(),
    }
}
