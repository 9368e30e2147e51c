//! The known spelling that is nearest to a word.

use std::alloc::{AllocError, Global};
use strsim::levenshtein;

/// The most bytes of a word for which a near one is looked for.
const LONGEST: usize = 64;

/// Whether two lengths differ by no more than so many.
fn differ_by_at_most(left: usize, right: usize, most: usize) -> bool {
    left.abs_diff(right) <= most
}

/// How many edits lead from a word to a known one, where they are fewer than so many.
fn edits_below(
    alloc: Global,
    word: &str,
    known: &str,
    bound: usize,
) -> Result<Option<usize>, AllocError> {
    if !differ_by_at_most(word.len(), known.len(), bound) {
        return Ok(None);
    }
    let edits = levenshtein(alloc, word, known)?;
    if edits < bound {
        return Ok(Some(edits));
    }
    Ok(None)
}

/// The known word to which the fewest edits lead (Levenshtein 1966), the first of several: none where each needs more than
/// a third of the word's length and one, or the word is long. Refuses only for want of memory.
pub fn nearest<'a>(
    alloc: Global,
    word: &str,
    known: &[&'a str],
) -> Result<Option<&'a str>, AllocError> {
    if word.len() > LONGEST {
        return Ok(None);
    }
    // (one more than may lead to a word that is still near)
    let mut bound = word.len() / 3 + 2;
    let mut found = None;
    for one in known {
        if let Some(edits) = edits_below(alloc, word, one, bound)? {
            bound = edits;
            found = Some(*one);
        }
    }
    Ok(found)
}
