//! The name of a step's action and its arguments.

ghost use Rattle.std.specs.Prelude.{◌≡◌, ◌∷◌, [], ◌==◌, ◌≤◌, ◌<◌, IfOk, IfSome, length, not};
ghost use Rattle.std.specs.List.{count_by, list_all, prefix_len, slice_split};
ghost use Rattle.std.specs.Option.{option_map};
ghost use Rattle.mp_forms.specs.Kinds.{is_name as is_name_text};
ghost use Rattle.mp_forms.specs.Words.{is_letter as is_letter_byte, is_name_byte as is_name_byte_of, begins_with_letter as begins_with_letter_text};
ghost use Rattle.mp_plans.specs.Names.{if_name, if_names, is_blank, is_within_word, words_left};

use crate::field::is_digit;
use mp_list::{List, OutOfMemory};
use mp_sexp::{Name, NameList};
use std::alloc::Global;

/// Whether a byte is a letter, and no capital.
fn is_letter(byte: u8) -> bool
    ensures { result ≡ is_letter_byte byte }
{
    byte >= b'a' && byte <= b'z'
}

/// Whether a byte may stand in a name.
fn is_name_byte(byte: u8) -> bool
    ensures { result ≡ is_name_byte_of byte }
{
    is_letter(byte) || is_digit(byte) || byte == b'-' || byte == b'_'
}

/// Whether a word begins with a letter.
fn begins_with_letter(word: &[u8]) -> bool
    ensures { result ≡ begins_with_letter_text word.now }
{
    match word {
        [] => false,
        [first, ..] => is_letter(*first),
    }
}

/// Whether a word has only bytes that may stand in a name.
fn has_name_bytes(word: &[u8]) -> bool
    ensures { result ≡ list_all is_name_byte_of word.now }
{
    word.iter().all(|byte| is_name_byte(*byte))
}

/// Whether a word is a name.
#[tactic(auto, unfolding(mp_forms::specs::Kinds::is_name))]
fn is_name(word: &[u8]) -> bool
    ensures { result ≡ is_name_text word.now }
{
    begins_with_letter(word) && has_name_bytes(word)
}

/// The name that a word is.
pub(crate) fn name_of(alloc: Global, word: &[u8]) -> Result<Option<Name>, OutOfMemory>
    ensures { IfOk result (λ name. name ≡ if_name word.now) }
{
    if !is_name(word) {
        return Ok(None);
    }
    let name = Name::folded(alloc, word)?;
    Ok(Some(name))
}

/// How many bytes stand before the first blank, all where there is none.
fn word_length(text: &[u8]) -> usize
    ensures value { result ≡ prefix_len is_within_word text.now }
    ensures within { result ≤ length text.now }
{
    for (before, byte) in text.iter().enumerate() {
        if *byte == b' ' {
            return before;
        }
    }
    text.len()
}

/// The first word of a text, and what follows the blank behind it, where there is one.
pub(crate) fn first_word(text: &[u8]) -> (&[u8], Option<&[u8]>)
    ensures words { slice_split is_blank text.now ≡ result.0.now ∷ words_left (option_map (λ x. x.now) result.1) }
    ensures shorter { IfSome result.1 (λ x. length x.now < length text.now) }
{
    let (word, rest) = text.split_at(word_length(text));
    match rest {
        [] => (word, None),
        [_, later @ ..] => (word, Some(later)),
    }
}

/// How many blanks a text has.
fn count_blanks(text: &[u8]) -> usize
    ensures { result ≡ count_by is_blank text.now }
{
    let mut count = 0;
    for byte in text {
        if *byte == b' ' {
            count += 1;
        }
    }
    count
}

/// The empty list, with memory for the names of a text.
fn room_for(alloc: Global, text: Option<&[u8]>) -> Result<NameList, OutOfMemory>
    ensures { IfOk result (λ names. names ≡ []) }
{
    match text {
        Some(words) => List::with_capacity(alloc, count_blanks(words).saturating_add(1)),
        None => Ok(List::new(alloc)),
    }
}

/// The names that the words of a text are, unless one is none.
pub(crate) fn names_in(alloc: Global, text: Option<&[u8]>) -> Result<Option<NameList>, OutOfMemory>
    ensures { IfOk result (λ names. names ≡ if_names (words_left (option_map (λ x. x.now) text.entry))) }
{
    let mut names = room_for(alloc, text)?;
    let mut rest = text;
    while let Some(left) = rest {
        let (word, later) = first_word(left);
        match name_of(alloc, word)? {
            Some(name) => names.push(name)?,
            None => return Ok(None),
        }
        rest = later;
    }
    Ok(Some(names))
}
