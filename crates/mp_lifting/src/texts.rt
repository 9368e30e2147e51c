//! Facts that agents show, in the numbers of a factor.

ghost use Rattle.std.specs.Prelude.{◌≡◌, ◌<◌, ◌==◌, ◌∷◌, [], true, false, Some, None, length, map, MatchOption, IfOk, OnOk, IfNone, IfSome, if◌then◌else◌};
ghost use Rattle.std.specs.List.{list_all, position, slice_split};
ghost use Rattle.mp_joint.specs.Fact.{is_listed};
ghost use Rattle.mp_sexp.specs.Numbers.{number_in};
ghost use Rattle.mp_lifting.specs.Factors.{between_brackets, has_brackets, can_be_named, named_atom, known_atom, known_atoms};

use crate::view::FactTexts;
use crate::vocabulary::Vocabulary;
use mp_lifted::GroundAtom;
use mp_list::{List, OutOfMemory, to_u32};
use mp_sexp::NameTable;
use std::alloc::Global;

/// What stands between the brackets of a text: none where it has no brackets.
#[tactic(auto, using(crate::proofs::BracketLemmas::short, crate::proofs::BracketLemmas::begins_otherwise, crate::proofs::BracketLemmas::ends_otherwise, crate::proofs::BracketLemmas::both))]
fn inner_text(text: &[u8]) -> Option<&[u8]>
    ensures { MatchOption result (has_brackets text.now ≡ false) (λ inner.
        (has_brackets text.now ≡ true) × (inner.now ≡ between_brackets text.now)) }
{
    let len = text.len();
    if len < 2 {
        return None;
    }
    if text[0] != b'(' {
        return None;
    }
    if text[len - 1] != b')' {
        return None;
    }
    Some(&text[1..len - 1])
}

/// Where the first space stands.
fn first_space(text: &[u8]) -> Option<usize>
    ensures space { result ≡ position (λ b. b == 32) text.now }
    ensures within { IfSome result (λ at. at < length text.now) }
{
    text.iter().position(|byte| *byte == b' ')
}

/// What stands before the first space and what stands behind it: none where there is no space.
#[tactic(auto, using(crate::proofs::Words::one_word))]
fn first_word(text: &[u8]) -> Option<(&[u8], &[u8])>
    ensures none { IfNone result (slice_split (λ b. b == 32) text.now ≡ text.now ∷ []) }
    ensures first { IfSome result (λ p. slice_split (λ b. b == 32) text.now
        ≡ p.0.now ∷ slice_split (λ b. b == 32) p.1.now) }
    ensures shorter { IfSome result (λ p. length p.1.now < length text.now) }
{
    match first_space(text) {
        Some(at) => Some((&text[..at], &text[at + 1..])),
        None => None,
    }
}

/// The words of a text, each two with a space between them. What `words` has is lost.
#[tactic(auto, using(crate::proofs::Words::one_more, crate::proofs::Words::last_one))]
fn split_words<'a>(words: &mut Vec<&'a [u8]>, text: &'a [u8]) -> Result<(), OutOfMemory>
    ensures { OnOk result (map (λ w. w.now) words.new.items ≡ slice_split (λ b. b == 32) text.now) }
{
    words.clear();
    let mut rest = text;
    while let Some((word, others)) = first_word(rest) {
        words.push(word)?;
        rest = others;
    }
    words.push(rest)?;
    Ok(())
}

/// The numbers of names: none where one is not there.
fn numbers_of(
    alloc: Global,
    table: &NameTable<'_>,
    words: &[&[u8]],
) -> Result<Option<List<u32>>, OutOfMemory>
    ensures { IfOk result (λ numbers. numbers ≡ (
        if list_all (λ w. is_listed w table.now) (map (λ w. w.now) words.now)
        then Some (map (number_in table.now) (map (λ w. w.now) words.now)) else None)) }
{
    let mut numbers = List::with_capacity(alloc, words.len())?;
    for word in words {
        let Some(number) = table.find(word) else {
            return Ok(None);
        };
        numbers.push(to_u32(number)?)?;
    }
    Ok(Some(numbers))
}

/// The atom of a predicate and objects: none where the vocabulary has one not.
fn atom_with(
    alloc: Global,
    vocabulary: &Vocabulary<'_>,
    predicate: &[u8],
    objects: &[&[u8]],
) -> Result<Option<GroundAtom>, OutOfMemory>
    ensures { IfOk result (λ made. made ≡ (
        if can_be_named vocabulary.now (predicate.now ∷ map (λ w. w.now) objects.now)
        then Some (named_atom vocabulary.now (predicate.now ∷ map (λ w. w.now) objects.now)) else None)) }
{
    let Some(symbol) = vocabulary.predicates.find(predicate) else {
        return Ok(None);
    };
    let symbol = to_u32(symbol)?;
    match numbers_of(alloc, &vocabulary.objects, objects)? {
        Some(args) => Ok(Some(GroundAtom { symbol, args })),
        None => Ok(None),
    }
}

/// The atom of these names: none where there are none, or the vocabulary has one not.
fn atom_of(
    alloc: Global,
    vocabulary: &Vocabulary<'_>,
    words: &[&[u8]],
) -> Result<Option<GroundAtom>, OutOfMemory>
    ensures { IfOk result (λ made. made ≡ (
        if can_be_named vocabulary.now (map (λ w. w.now) words.now)
        then Some (named_atom vocabulary.now (map (λ w. w.now) words.now)) else None)) }
{
    match words {
        [predicate, objects @ ..] => atom_with(alloc, vocabulary, predicate, objects),
        [] => Ok(None),
    }
}

/// The atom that a text spells: none where it spells none, or the vocabulary has a name not. What `words` has is lost.
fn shown_atom<'a>(
    alloc: Global,
    words: &mut Vec<&'a [u8]>,
    vocabulary: &Vocabulary<'_>,
    text: &'a [u8],
) -> Result<Option<GroundAtom>, OutOfMemory>
    ensures { IfOk result (λ made. made ≡ known_atom vocabulary.now text.now) }
{
    match inner_text(text) {
        Some(inner) => {
            split_words(words, inner)?;
            atom_of(alloc, vocabulary, words.as_slice())
        }
        None => Ok(None),
    }
}

/// The facts that texts spell and that the vocabulary has names for.
pub fn read_known(
    alloc: Global,
    vocabulary: &Vocabulary<'_>,
    texts: &FactTexts,
) -> Result<List<GroundAtom>, OutOfMemory>
    ensures { IfOk result (λ made. made ≡ known_atoms vocabulary.now texts.now) }
{
    let mut words = Vec::new(alloc);
    let mut made = List::new(alloc);
    for text in texts.as_slice() {
        if let Some(atom) = shown_atom(alloc, &mut words, vocabulary, text.as_slice())? {
            made.push(atom)?;
        }
    }
    Ok(made)
}
