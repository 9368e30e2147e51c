//! The reader: it goes over a text once, from left to right, with the lists that stand open on a stack.

ghost use Rattle.std.specs.Prelude.{◌≡◌, ◌+◌, ◌^◌, ◌<◌, ◌≤◌, ◌∷◌, [], Ok, length, drop, IfOk, IfErr};
ghost use Rattle.std.specs.List.{prefix_len};
ghost use Rattle.mp_sexp.specs.Node.{node_of};
ghost use Rattle.mp_sexp.specs.Spelling.{next_place};
ghost use Rattle.mp_sexp.specs.Reading.{Gives, Fails, GoesOn, state_of, run, node_at, is_word, is_within_line, further};

use crate::bytes::{Kind, is_word_byte, kind_of_byte};
use crate::open_lists::{Lists, refuse_misplaced};
use crate::refusal::ReadRefusal;
use crate::tree::{Place, Tree};
use std::alloc::Global;

/// The place after this byte, which stands at this place.
fn place_behind(place: Place, byte: u8) -> Place
    requires line { place.line + 1 < 2 ^ 32 }
    requires column { place.column + 1 < 2 ^ 32 }
    ensures { result ≡ next_place place byte }
{
    if byte == b'\n' {
        Place {
            line: place.line + 1,
            column: 1,
        }
    } else {
        Place {
            line: place.line,
            column: place.column + 1,
        }
    }
}

/// How many bytes of a word stand first in a text.
fn word_len(text: &[u8]) -> usize
    ensures value { result ≡ prefix_len is_word text.now }
    ensures within { result ≤ length text.now }
{
    for (len, byte) in text.iter().enumerate() {
        if !is_word_byte(*byte) {
            return len;
        }
    }
    text.len()
}

/// How many bytes stand before the first line feed of a text, or before its end.
fn line_len(text: &[u8]) -> usize
    ensures value { result ≡ prefix_len is_within_line text.now }
    ensures within { result ≤ length text.now }
{
    for (len, byte) in text.iter().enumerate() {
        if *byte == b'\n' {
            return len;
        }
    }
    text.len()
}

/// The place so many bytes further on in a line.
fn place_further_on(place: Place, len: usize) -> Place
    requires { place.column + len < 2 ^ 32 }
    ensures { result ≡ further place len }
{
    Place {
        line: place.line,
        column: place.column + len as u32,
    }
}

/// What stands behind a comment, whose text this is: from the line feed that ends it.
fn after_comment(place: Place, text: &[u8]) -> (Place, &[u8])
    requires { place.column + length text.now < 2 ^ 32 }
    ensures place { result.0 ≡ further place (prefix_len is_within_line text.now) }
    ensures rest { result.1.now ≡ drop (prefix_len is_within_line text.now) text.now }
{
    let len = line_len(text);
    let (_, rest) = text.split_at(len);
    (place_further_on(place, len), rest)
}

/// The word that stands first in a text is read.
fn after_word<'t>(
    lists: &mut Lists,
    alloc: Global,
    place: Place,
    text: &'t [u8],
) -> Result<(Place, &'t [u8]), ReadRefusal>
    requires some { 0 < prefix_len is_word text.now }
    requires column { place.column + length text.now < 2 ^ 32 }
    ensures ok { IfOk result (λ p. GoesOn (state_of lists.old) place text.now (state_of lists.new) p.0 p.1.now) }
    ensures err { IfErr result (λ e. Fails e (run (state_of lists.old) place text.now)) }
{
    if lists.around.is_empty() {
        return Err(refuse_misplaced(lists.members.as_slice(), place));
    }
    let len = word_len(text);
    let (word, rest) = text.split_at(len);
    lists.add_word(alloc, word, place)?;
    Ok((place_further_on(place, len), rest))
}

/// The word, bracket, space or comment that stands first in a text is read: where the rest of the text stands, and the rest.
fn after_first<'t>(
    lists: &mut Lists,
    alloc: Global,
    place: Place,
    text: &'t [u8],
) -> Result<(Place, &'t [u8]), ReadRefusal>
    requires some { 0 < length text.now }
    requires line { place.line + length text.now < 2 ^ 32 }
    requires column { place.column + length text.now < 2 ^ 32 }
    ensures ok { IfOk result (λ p. GoesOn (state_of lists.old) place text.now (state_of lists.new) p.0 p.1.now) }
    ensures err { IfErr result (λ e. Fails e (run (state_of lists.old) place text.now)) }
{
    match text {
        [] => Ok((place, text)),
        [byte, rest @ ..] => {
            match kind_of_byte(*byte) {
                Kind::Space => {}
                Kind::Comment => return Ok(after_comment(place_behind(place, *byte), rest)),
                Kind::Open => lists.open(alloc, place)?,
                Kind::Close => lists.close(alloc, place)?,
                Kind::Word => return after_word(lists, alloc, place, text),
                Kind::Foreign => return Err(ReadRefusal::Char(place)),
            }
            Ok((place_behind(place, *byte), rest))
        }
    }
}

/// The tree of a text, or its first fault.
#[tactic(auto, unfolding(crate::specs::Reading::node_at))]
pub fn tree_at(alloc: Global, text: &[u8]) -> Result<Tree, ReadRefusal>
    requires { length text.now + 1 < 2 ^ 32 }
    ensures { Gives node_of result (node_at text.now) }
{
    let mut place = Place { line: 1, column: 1 };
    let mut lists = Lists::new(alloc);
    let mut rest = text;
    while !rest.is_empty() {
        let (next, left) = after_first(&mut lists, alloc, place, rest)?;
        place = next;
        rest = left;
    }
    lists.only_tree(place)
}
